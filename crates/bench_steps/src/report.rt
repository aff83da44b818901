//! Reports of times.
use std::io;
use std::time::Instant;

/// Prints how long a turn took since the start, if times are shown.
pub fn report(
    rt: &HostRuntime,
    shown: bool,
    name: &str,
    start: io::Result<Instant>,
    turns: u64,
) -> io::Result<()> {
    let took = start?.elapsed(rt)?;
    if shown {
        let thousandths = took.as_nanos() / u128::from((turns / 1000).max(1));
        println!(rt;
            "{name}: {}.{:03} ns",
            thousandths / 1000,
            thousandths % 1000
        )?;
    }
    Ok(())
}
