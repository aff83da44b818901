//! The acts of a thread. Each is refused with `NotThis` for another party. A poll's number is the one that the poll
//! word is armed with, or 0 if the thread continues.
ghost use Rattle.std.specs.Prelude.{◌≡◌, ◌≢◌, Ok, Err, IfOk, IfErr};
ghost use Rattle.parties.specs.Asked.{WasStarted};
ghost use Rattle.parties.specs.Acted.{Acts, GivesUp, StartFails, code_of, has_stack};

use crate::acts::{Act, Fault};
use crate::crossing::{self, number_of};
use crate::party::{Party, Role};
use bodies::{Called, Name};
use frames::image::Image;
use std::mem;
use thread_list::{CallFault, Entered, Poll, ReturnFault};
use thread_state::State;

fn code_of(state: State) -> u64
    ensures { result ≡ code_of state }
{
    match state {
        State::InJava => 0,
        State::InVm => 1,
        State::AtPoll(_) => 2,
        State::InNative(_) => 3,
        State::Blocked => 4,
        State::Serving(_) => 5,
        State::Vacant
        | State::New
        | State::NewTrans
        | State::NativeTrans(_)
        | State::BlockedTrans => 6,
    }
}

// Whether a thread in this state has its stack, and no poll has stopped it.
fn has_stack(state: State) -> bool
    ensures { result ≡ has_stack state }
{
    match state {
        State::InJava | State::InVm | State::Serving(_) => true,
        State::AtPoll(_)
        | State::InNative(_)
        | State::Blocked
        | State::Vacant
        | State::New
        | State::NewTrans
        | State::NativeTrans(_)
        | State::BlockedTrans => false,
    }
}

impl<N: Name> Party<N> {
    /// Takes a back edge. Returns the poll's number.
    #[inline(always)]
    pub fn back_edge(&mut self) -> Result<u64, Fault>
        ensures { Acts N.board.places self.old Act.BackEdge result self.new }
    {
        let Role::Runs(runner) = &mut self.role else {
            return Err(Fault::NotThis);
        };
        // One match, of which the compiler makes one path for a thread that continues.
        match runner.back_edge(self.system.row()) {
            Ok(Poll::Go) => Ok(0),
            Ok(Poll::Stop(n)) => Ok(n),
            Err(_state) => Err(Fault::Illegal),
        }
    }

    /// Calls a method. Returns the serial of its code, 0 if it is interpreted.
    #[inline(always)]
    pub fn call(&mut self, method: u32) -> Result<u64, Fault>
        ensures { Acts N.board.places self.old (Act.Call method) result self.new }
    {
        let Role::Runs(runner) = &mut self.role else {
            return Err(Fault::NotThis);
        };
        let hint = self.system.hint(method);
        match runner.call(self.system.board(), method, hint) {
            Ok(Called::Compiled(serial)) => Ok(serial),
            Ok(Called::Interpreted) => Ok(0),
            Err(CallFault::Illegal(_)) => Err(Fault::Illegal),
            Err(CallFault::NoSuchMethod) => Err(Fault::NoSuchMethod),
            Err(CallFault::DepthFull) => Err(Fault::DepthFull),
        }
    }

    /// Returns from a method. Returns the poll's number.
    #[inline(always)]
    pub fn ret(&mut self) -> Result<u64, Fault>
        ensures { Acts N.board.places self.old Act.Ret result self.new }
    {
        let Role::Runs(runner) = &mut self.role else {
            return Err(Fault::NotThis);
        };
        match runner.ret(self.system.row()) {
            Ok(Poll::Go) => Ok(0),
            Ok(Poll::Stop(n)) => Ok(n),
            Err(ReturnFault::Illegal(_)) => Err(Fault::Illegal),
            Err(ReturnFault::EmptyStack) => Err(Fault::EmptyStack),
        }
    }

    #[inline(always)]
    pub fn publish(&mut self) -> Result<u64, Fault>
        ensures { Acts N.board.places self.old Act.Publish result self.new }
    {
        let Role::Runs(runner) = &mut self.role else {
            return Err(Fault::NotThis);
        };
        match runner.publish(self.system.board()) {
            Ok(()) => Ok(0),
            Err(_state) => Err(Fault::Illegal),
        }
    }

    pub fn to_vm(&mut self) -> Result<u64, Fault>
        ensures { Acts N.board.places self.old Act.ToVm result self.new }
    {
        let Role::Runs(runner) = &mut self.role else {
            return Err(Fault::NotThis);
        };
        match runner.to_vm() {
            Ok(()) => Ok(0),
            Err(_state) => Err(Fault::Illegal),
        }
    }

    pub fn from_vm(&mut self) -> Result<u64, Fault>
        ensures { Acts N.board.places self.old Act.FromVm result self.new }
    {
        let Role::Runs(runner) = &mut self.role else {
            return Err(Fault::NotThis);
        };
        match runner.from_vm(self.system.row()) {
            Ok(poll) => Ok(number_of(poll)),
            Err(_state) => Err(Fault::Illegal),
        }
    }

    /// Goes into native code.
    #[inline(always)]
    pub fn to_native(&mut self) -> Result<u64, Fault>
        ensures { Acts N.board.places self.old Act.ToNative result self.new }
    {
        let Role::Runs(runner) = &mut self.role else {
            return Err(Fault::NotThis);
        };
        crossing::to_native(&self.system, runner)
    }

    /// Comes back from native code. Returns the poll's number.
    #[inline(always)]
    pub fn from_native(&mut self) -> Result<u64, Fault>
        ensures { Acts N.board.places self.old Act.FromNative result self.new }
    {
        let Role::Runs(runner) = &mut self.role else {
            return Err(Fault::NotThis);
        };
        crossing::from_native(&self.system, runner)
    }

    /// Goes from the VM into a wait that the runtime knows of.
    pub fn block(&mut self) -> Result<u64, Fault>
        ensures { Acts N.board.places self.old Act.Block result self.new }
    {
        let Role::Runs(runner) = &mut self.role else {
            return Err(Fault::NotThis);
        };
        crossing::block(&self.system, runner)
    }

    /// Comes back from a wait. Returns the poll's number.
    pub fn unblock(&mut self) -> Result<u64, Fault>
        ensures { Acts N.board.places self.old Act.Unblock result self.new }
    {
        let Role::Runs(runner) = &mut self.role else {
            return Err(Fault::NotThis);
        };
        crossing::unblock(&self.system, runner)
    }

    /// Returns the thread's name.
    pub fn name(&mut self) -> Result<u64, Fault>
        ensures { Acts N.board.places self.old Act.Name result self.new }
    {
        let Role::Runs(runner) = &self.role else {
            return Err(Fault::NotThis);
        };
        Ok(runner.name())
    }

    /// Returns the place of the thread and its words.
    pub fn place(&mut self) -> Result<u64, Fault>
        ensures { Acts N.board.places self.old Act.Place result self.new }
    {
        let Role::Runs(runner) = &self.role else {
            return Err(Fault::NotThis);
        };
        Ok(runner.place() as u64)
    }

    /// Returns the thread's state: 0 in Java, 1 in the VM, 2 at a poll, 3 in native code, 4 blocked, 5 serving.
    pub fn state(&mut self) -> Result<u64, Fault>
        ensures { Acts N.board.places self.old Act.State result self.new }
    {
        let Role::Runs(runner) = &self.role else {
            return Err(Fault::NotThis);
        };
        Ok(code_of(runner.state()))
    }

    /// Returns how many frames the thread's stack has. Refused unless the thread is in Java, in the VM or serving.
    pub fn depth(&mut self) -> Result<u64, Fault>
        ensures { Acts N.board.places self.old Act.Depth result self.new }
    {
        let Role::Runs(runner) = &self.role else {
            return Err(Fault::NotThis);
        };
        if has_stack(runner.state()) {
            Ok(runner.depth() as u64)
        } else {
            Err(Fault::Illegal)
        }
    }

    /// Continues after a poll that stopped. Returns the number of the operation to serve, 0 if the thread continues.
    pub fn stop_next(&mut self) -> Result<u64, Fault>
        ensures { Acts N.board.places self.old Act.StopNext result self.new }
    {
        let Role::Runs(runner) = &mut self.role else {
            return Err(Fault::NotThis);
        };
        crossing::stop_next(&self.system, runner)
    }

    /// Ends the serving: enters the job's reply and polls. Returns the poll's number.
    pub fn stop_serve(&mut self) -> Result<u64, Fault>
        ensures { Acts N.board.places self.old Act.StopServe result self.new }
    {
        let Role::Runs(runner) = &mut self.role else {
            return Err(Fault::NotThis);
        };
        let (number, _finished) = crossing::stop_serve(&self.system, runner)?;
        Ok(number)
    }

    /// Makes the client a thread in the least vacant place. Returns its name.
    pub fn start(&mut self) -> Result<u64, Fault>
        ensures { Acts N.board.places self.old Act.Start result self.new }
    {
        match &self.role {
            Role::Shares => {
                self.enter_start()?;
                self.move_in()
            }
            Role::Starts(_) => self.move_in(),
            Role::Runs(_) | Role::Leaves(_) | Role::Coordinates(_) => Err(Fault::NotThis),
        }
    }

    fn enter_start(&mut self) -> Result<(), Fault>
        requires { self.old.role ≡ Role.Shares }
        ensures ok { IfOk result
            (λ _. (e : _) × (self.new ≡ record self.old { role = Role.Starts e })
            × WasStarted e.name e.place) }
        ensures err { IfErr result (λ e. (self.new ≡ self.old) × StartFails N.board.places e) }
    {
        let image = Image::new(self.alloc);
        let (name, place, _receipt) = crossing::enter_start(&self.system, image.is_ok())?;
        let Ok(image) = image else { unreachable!() };
        self.role = Role::Starts(Entered::new(name, place, self.system.methods(), image));
        Ok(())
    }

    fn move_in(&mut self) -> Result<u64, Fault>
        requires { (e : _) × (self.old.role ≡ Role.Starts e) }
        ensures { Acts N.board.places self.old Act.Start result self.new }
    {
        let Role::Starts(entered) = mem::replace(&mut self.role, Role::Shares) else {
            unreachable!()
        };
        let name = entered.name();
        match crossing::move_in(&self.system, entered) {
            Ok(runner) => {
                self.role = Role::Runs(runner);
                Ok(name)
            }
            Err(entered) => {
                self.role = Role::Starts(entered);
                Err(Fault::Again)
            }
        }
    }

    /// Ends the thread and returns 0; the party is a client again. If an operation is pending for the thread, it polls
    /// instead, and the poll's number is returned.
    pub fn exit(&mut self) -> Result<u64, Fault>
        ensures { Acts N.board.places self.old Act.Exit result self.new }
    {
        match &self.role {
            Role::Runs(_) => match self.vacate()? {
                0 => self.enter_exit(),
                told => Ok(told),
            },
            Role::Leaves(_) => self.enter_exit(),
            Role::Shares | Role::Starts(_) | Role::Coordinates(_) => Err(Fault::NotThis),
        }
    }

    fn vacate(&mut self) -> Result<u64, Fault>
        requires { (r : _) × (self.old.role ≡ Role.Runs r) }
        ensures ok { IfOk result
            (λ n. n ≡ 0 → (m : _) × (r : _) × (self.old.role ≡ Role.Runs r)
            × (self.new ≡ record self.old { role = Role.Leaves m }) × GivesUp r m) }
        ensures told { IfOk result
            (λ n. n ≢ 0 → Acts N.board.places self.old Act.Exit (Ok n) self.new) }
        ensures err { IfErr result (λ e. Acts N.board.places self.old Act.Exit (Err e) self.new) }
    {
        let Role::Runs(runner) = mem::replace(&mut self.role, Role::Shares) else {
            unreachable!()
        };
        match crossing::vacate(&self.system, runner) {
            Ok(vacated) => {
                self.role = Role::Leaves(vacated);
                Ok(0)
            }
            Err((said, runner)) => {
                self.role = Role::Runs(runner);
                said
            }
        }
    }

    fn enter_exit(&mut self) -> Result<u64, Fault>
        requires { (m : _) × (self.old.role ≡ Role.Leaves m) }
        ensures { Acts N.board.places self.old Act.Exit result self.new }
    {
        let Role::Leaves(vacated) = &self.role else {
            unreachable!()
        };
        let name = vacated.name();
        let Some(_receipt) = crossing::enter_exit(&self.system, name) else {
            return Err(Fault::Again);
        };
        self.role = Role::Shares;
        Ok(0)
    }
}
