// Tests of `method_table`.
use super::{Player, number_at, play, told};
use method_table::table::{InstallFault, MethodTable};
use std::alloc::Global;
use std::process::Abort;
use std::test::Fail;

impl Player for MethodTable {
    fn answer<R: Abort>(&mut self, rt: &R, alloc: Global, call: &str, numbers: &[u64]) -> String {
        if numbers.is_empty() {
            return told_of_sizes(rt, alloc, self, call);
        }
        let number = number_at(rt, numbers, 0);
        match call {
            "install" => told(rt, alloc, self.install(number)),
            "invalidate" => told(rt, alloc, self.invalidate(number)),
            "retire" => told(rt, alloc, self.retire(number)),
            "free" => told(rt, alloc, self.free(number)),
            "entry" => told(rt, alloc, self.entry(number, number_at(rt, numbers, 1))),
            _ => told_by(rt, alloc, self, call, number),
        }
    }
}

fn told_of_sizes(rt: &impl Abort, alloc: Global, table: &MethodTable, call: &str) -> String {
    match call {
        "slots" => told(rt, alloc, table.slots()),
        "methods" => told(rt, alloc, table.methods()),
        _ => panic!(rt; "no such call"),
    }
}

// What the table says about a method or a serial.
fn told_by(rt: &impl Abort, alloc: Global, table: &MethodTable, call: &str, number: u64) -> String {
    match call {
        "refusal" => told(rt, alloc, table.refusal(number)),
        "current" => told(rt, alloc, table.current(number)),
        "state" => told(rt, alloc, table.state(number)),
        "find" => told(rt, alloc, table.find(number)),
        _ => panic!(rt; "no such call"),
    }
}

// Plays on an empty table with so many slots and methods.
fn play_on_table(rt: &impl Abort, alloc: Global, slots: u32, methods: u32, rows: &str) {
    let mut table = MethodTable::new(alloc, slots, methods).expect(rt, "no memory");
    play(rt, alloc, &mut table, rows);
}

#[test]
fn installs_take_the_least_free_slot(rt: HostRuntime) {
    // When code 3 is installed, one slot was never used, but the number of the freed slot is less.
    let rows = "\
slots => 3; methods => 4
install 0 => Ok(Installed { code: CodeId { slot: 0, serial: 1 }, replaced: None })
install 1 => Ok(Installed { code: CodeId { slot: 1, serial: 2 }, replaced: None })
invalidate 1 => Ok(()); retire 1 => Ok(()); free 1 => Ok(())
install 2 => Ok(Installed { code: CodeId { slot: 0, serial: 3 }, replaced: None })
install 3 => Ok(Installed { code: CodeId { slot: 2, serial: 4 }, replaced: None })
install 0 => Err(TableFull)
invalidate 4 => Ok(()); retire 4 => Ok(()); free 4 => Ok(()); invalidate 2 => Ok(()); retire 2 => Ok(()); free 2 => Ok(())
install 3 => Ok(Installed { code: CodeId { slot: 1, serial: 5 }, replaced: None })
install 1 => Ok(Installed { code: CodeId { slot: 2, serial: 6 }, replaced: None })
install 0 => Err(TableFull)";
    play_on_table(&rt, rt.alloc(), 3, 4, rows);
}

#[test]
fn installs_are_refused_in_order(rt: HostRuntime) {
    // A method that doesn't exist is reported first, although the table is full too. A refusal leaves the code that would be replaced in
    // use. Neither code that is not entrant nor a zombie gives its slot back.
    let rows = "\
install 2 => Err(NoSuchMethod)
install 0 => Ok(Installed { code: CodeId { slot: 0, serial: 1 }, replaced: None })
install 18446744073709551615 => Err(NoSuchMethod); install 1 => Err(TableFull)
install 0 => Err(TableFull); state 1 => Some(InUse); invalidate 1 => Ok(())
install 0 => Err(TableFull); retire 1 => Ok(()); install 0 => Err(TableFull); free 1 => Ok(())
install 0 => Ok(Installed { code: CodeId { slot: 0, serial: 2 }, replaced: None })";
    play_on_table(&rt, rt.alloc(), 1, 2, rows);
}

#[test]
fn a_new_code_replaces_the_one_in_use(rt: HostRuntime) {
    let rows = "\
install 0 => Ok(Installed { code: CodeId { slot: 0, serial: 1 }, replaced: None })
install 1 => Ok(Installed { code: CodeId { slot: 1, serial: 2 }, replaced: None })
install 0 => Ok(Installed { code: CodeId { slot: 2, serial: 3 }, replaced: Some(CodeId { slot: 0, serial: 1 }) })
current 0 => Some(CodeId { slot: 2, serial: 3 })
state 1 => Some(NotEntrant); state 2 => Some(InUse); invalidate 1 => Err(NotInUse)
entry 0 1 => Some(WrongMethod)
entry 0 3 => Some(Enters(CodeId { slot: 2, serial: 3 }))
install 0 => Err(TableFull)
current 0 => Some(CodeId { slot: 2, serial: 3 })
retire 1 => Ok(()); free 1 => Ok(())
install 0 => Ok(Installed { code: CodeId { slot: 0, serial: 4 }, replaced: Some(CodeId { slot: 2, serial: 3 }) })";
    play_on_table(&rt, rt.alloc(), 3, 2, rows);
}

#[test]
fn states_only_go_forward(rt: HostRuntime) {
    let rows = "\
state 1 => None; invalidate 1 => Err(Unknown); retire 1 => Err(Unknown); free 1 => Err(Unknown)
install 1 => Ok(Installed { code: CodeId { slot: 0, serial: 1 }, replaced: None })
state 0 => None; state 1 => Some(InUse); state 2 => None; state 18446744073709551615 => None
retire 1 => Err(NotNotEntrant); free 1 => Err(NotZombie); invalidate 1 => Ok(())
state 1 => Some(NotEntrant); invalidate 1 => Err(NotInUse); free 1 => Err(NotZombie); retire 1 => Ok(())
state 1 => Some(Zombie); invalidate 1 => Err(NotInUse); retire 1 => Err(NotNotEntrant); free 1 => Ok(())
state 1 => Some(Freed); invalidate 1 => Err(Unknown); retire 1 => Err(Unknown); free 1 => Err(Unknown)";
    play_on_table(&rt, rt.alloc(), 2, 2, rows);
}

#[test]
fn codes_are_found_until_they_are_freed(rt: HostRuntime) {
    // At the end, another code has the slot of the freed code.
    let rows = "\
find 1 => None; state 1 => None
install 0 => Ok(Installed { code: CodeId { slot: 0, serial: 1 }, replaced: None })
install 1 => Ok(Installed { code: CodeId { slot: 1, serial: 2 }, replaced: None })
invalidate 1 => Ok(())
find 1 => Some(Code { serial: 1, slot: 0, method: 0, state: NotEntrant })
retire 1 => Ok(()); free 1 => Ok(()); find 1 => None; find 3 => None
install 0 => Ok(Installed { code: CodeId { slot: 0, serial: 3 }, replaced: None })
find 1 => None; state 1 => Some(Freed)";
    play_on_table(&rt, rt.alloc(), 2, 2, rows);
}

#[test]
fn calls_enter_code_in_use_of_their_method(rt: HostRuntime) {
    // A call of code that is not entrant is answered WrongMethod. A call of the method's next code enters it, and a call of the first code
    // is answered WrongMethod for good.
    let rows = "\
current 0 => None
install 0 => Ok(Installed { code: CodeId { slot: 0, serial: 1 }, replaced: None })
current 0 => Some(CodeId { slot: 0, serial: 1 })
entry 0 1 => Some(Enters(CodeId { slot: 0, serial: 1 }))
entry 1 1 => Some(NotOf); entry 0 2 => None; entry 0 0 => None
invalidate 1 => Ok(()); current 0 => None; entry 0 1 => Some(WrongMethod); entry 1 1 => Some(WrongMethod)
install 0 => Ok(Installed { code: CodeId { slot: 1, serial: 2 }, replaced: None })
current 0 => Some(CodeId { slot: 1, serial: 2 })
current 2 => None
retire 1 => Ok(()); entry 0 1 => Some(WrongMethod); free 1 => Ok(()); entry 0 1 => Some(WrongMethod)
entry 0 2 => Some(Enters(CodeId { slot: 1, serial: 2 }))";
    play_on_table(&rt, rt.alloc(), 4, 2, rows);
}

// Four codes of each method. From the second round on, each code replaces the one before it.
fn fill(rt: &impl Abort, table: &mut MethodTable) {
    for slot in 0..1024u64 {
        let Ok(made) = table.install(slot % 256) else {
            panic!(rt; "refused")
        };
        assert!(rt; made.code.slot as u64 == slot);
        assert!(rt; made.code.serial == slot + 1);
        assert!(rt; made.replaced.is_some() == (slot >= 256));
    }
}

// The most codes that may exist at once: as many as slots, four of each method.
#[test]
fn the_greatest_table_fills(rt: HostRuntime) {
    let mut table = MethodTable::new(rt.alloc(), 1024, 256).expect(&rt, "no memory");
    fill(&rt, &mut table);
    let rows = "\
slots => 1024; methods => 256; invalidate 1024 => Ok(())
refusal 255 => Some(TableFull); install 255 => Err(TableFull); refusal 256 => Some(NoSuchMethod)
retire 300 => Ok(()); free 300 => Ok(()); refusal 255 => None
install 255 => Ok(Installed { code: CodeId { slot: 299, serial: 1025 }, replaced: None })
current 255 => Some(CodeId { slot: 299, serial: 1025 })";
    play(&rt, rt.alloc(), &mut table, rows);
}

// Installs the code of this serial. Answers whether the install lacked memory: then it changed nothing, and is made again.
fn lacked_memory(rt: &impl Abort, table: &mut MethodTable, serial: u64) -> bool {
    let found = table.install(0);
    let is_refused = found.is_err();
    if is_refused {
        assert!(rt; matches!(found, Err(InstallFault::NoMemory)));
        assert!(rt; table.state(serial).is_none());
        assert!(rt; table.install(0).is_ok());
    }
    assert!(rt; table.state(serial).is_some());
    is_refused
}

// It passes whichever growth of memory is refused.
#[test]
fn want_of_memory_changes_nothing(rt: HostRuntime) -> Result<(), Fail> {
    let Ok(mut table) = MethodTable::new(rt.alloc(), 2, 1) else {
        println!(rt; "the table was refused")?;
        return Ok(());
    };
    let first = lacked_memory(&rt, &mut table, 1);
    let second = lacked_memory(&rt, &mut table, 2);
    match (first, second) {
        (false, false) => println!(rt; "no growth was refused")?,
        (true, _) => println!(rt; "install 1 was refused")?,
        (false, true) => println!(rt; "install 2 was refused")?,
    }
    Ok(())
}
