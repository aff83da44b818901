//! The acts of a thread in Java at a mark that enters no method: it polls, or goes into another state and comes back.
ghost use Rattle.std.specs.Prelude.{◌≡◌, IfErr, OnOk};
ghost use Rattle.thread_state.specs.declared.State.TheVariants.{InJava, InVm};
ghost use Rattle.thread_list.specs.Moves.{SameThread};
ghost use Rattle.thread_list.specs.Refused.{return_refused, HasNoFrame};
ghost use Rattle.workers.specs.Marks.{goes_on, Settles, Returns, Turns, GoesNative, GoesVm, Blocks, ComesFromVm};

use bodies::Name;
use operations::job::HandshakeOp;
use std::sync::Wait;
use thread_list::{Mutator, ReturnFault};
use thread_state::State;

/// A thread that its last poll stopped serves its pending operations, and continues where that poll leads. Any other thread stays as it
/// is.
pub fn serve_stop<N: Name, J: HandshakeOp, R: Wait>(rt: &R, thread: &mut Mutator<'_, N, J>)
    ensures settled { Settles thread.old thread.new }
    ensures state { thread.new.state ≡ goes_on thread.old.state }
    ensures same { SameThread thread.old thread.new }
{
    if let State::AtPoll(_) = thread.state() {
        let Ok(_turn) = thread.stop(rt) else {
            unreachable!()
        };
    }
}

/// Returns from the method of the top frame, and polls. Refused only if there is no frame.
pub fn return_from<N: Name, J: HandshakeOp, R: Wait>(
    rt: &R,
    thread: &mut Mutator<'_, N, J>,
) -> Result<(), ReturnFault>
    requires { thread.old.state ≡ InJava }
    ensures ok { OnOk result (Returns thread.old thread.new) }
    ensures state { thread.new.state ≡ InJava }
    ensures same { SameThread thread.old thread.new }
    ensures err { IfErr result (λ e. (thread.new ≡ thread.old) × return_refused thread.old e) }
{
    thread.ret()?;
    serve_stop(rt, thread);
    Ok(())
}

/// Returns from all methods.
pub fn unwind<N: Name, J: HandshakeOp, R: Wait>(rt: &R, thread: &mut Mutator<'_, N, J>)
    requires { thread.old.state ≡ InJava }
    ensures state { thread.new.state ≡ InJava }
    ensures frames { HasNoFrame thread.new.body }
    ensures same { SameThread thread.old thread.new }
{
    for _ in rt.forever() {
        if let Err(ReturnFault::EmptyStack) = return_from(rt, thread) {
            return;
        }
    }
    unreachable!()
}

/// Polls at the back edge of a loop.
pub fn turn<N: Name, J: HandshakeOp, R: Wait>(rt: &R, thread: &mut Mutator<'_, N, J>)
    requires { thread.old.state ≡ InJava }
    ensures turned { Turns thread.old thread.new }
    ensures state { thread.new.state ≡ InJava }
    ensures same { SameThread thread.old thread.new }
{
    let Ok(_) = thread.back_edge() else {
        unreachable!()
    };
    serve_stop(rt, thread);
}

/// Goes into native code and back.
pub fn go_native<N: Name, J: HandshakeOp, R: Wait>(rt: &R, thread: &mut Mutator<'_, N, J>)
    requires { thread.old.state ≡ InJava }
    ensures went { GoesNative thread.new }
    ensures state { thread.new.state ≡ InJava }
    ensures same { SameThread thread.old thread.new }
{
    let Ok(()) = thread.to_native(rt) else {
        unreachable!()
    };
    let Ok(_) = thread.from_native(rt) else {
        unreachable!()
    };
    serve_stop(rt, thread);
}

/// Goes into the VM and back.
pub fn go_vm<N: Name, J: HandshakeOp, R: Wait>(rt: &R, thread: &mut Mutator<'_, N, J>)
    requires { thread.old.state ≡ InJava }
    ensures went { GoesVm thread.old thread.new }
    ensures state { thread.new.state ≡ InJava }
    ensures same { SameThread thread.old thread.new }
{
    let Ok(()) = thread.to_vm() else {
        unreachable!()
    };
    come_from_vm(rt, thread);
}

/// Goes into the VM, blocks, and comes all the way back.
pub fn block<N: Name, J: HandshakeOp, R: Wait>(rt: &R, thread: &mut Mutator<'_, N, J>)
    requires { thread.old.state ≡ InJava }
    ensures blocked { Blocks thread.new }
    ensures state { thread.new.state ≡ InJava }
    ensures same { SameThread thread.old thread.new }
{
    let Ok(()) = thread.to_vm() else {
        unreachable!()
    };
    let Ok(()) = thread.block(rt) else {
        unreachable!()
    };
    let Ok(_) = thread.unblock(rt) else {
        unreachable!()
    };
    serve_stop(rt, thread);
    come_from_vm(rt, thread);
}

// Returns from the VM into Java.
fn come_from_vm<N: Name, J: HandshakeOp, R: Wait>(rt: &R, thread: &mut Mutator<'_, N, J>)
    requires { thread.old.state ≡ InVm }
    ensures came { ComesFromVm thread.old thread.new }
    ensures state { thread.new.state ≡ InJava }
    ensures same { SameThread thread.old thread.new }
{
    let Ok(_) = thread.from_vm() else {
        unreachable!()
    };
    serve_stop(rt, thread);
}
