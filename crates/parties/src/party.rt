//! A party of a running system: a client, a thread or the coordinator.
ghost use Rattle.std.specs.Prelude.{◌≡◌, IfOk};
ghost use Rattle.parties.specs.Acted.{Acts, party_as};

use crate::acts::{Act, Fault};
use crate::next_targets::NextTargets;
use crate::system::SharedSystem;
use berths::BodyReceipt;
use bodies::Name;
use coordinator_core::{CoordinatorCore, Drive};
use operations::job::Query;
use std::alloc::{AllocError, Global};
use std::marker::Model;
use std::sync::Arc;
use thread_list::{Entered, RunningThread};

/// The role of a party.
#[derive(Drop)]
pub enum Role<N: Name> {
    /// A client, which only shares the system. So is a thread that exited.
    Shares,
    /// A thread whose Start is entered.
    Starts(Entered<N>),
    /// A thread.
    Runs(RunningThread<N>),
    /// A thread that gave up its place, and whose Exit isn't entered.
    Leaves(BodyReceipt<N>),
    /// The coordinator.
    Coordinates(CoordinatorCore<N>),
}

/// A party, with the system that it shares. Contracts see its role, the targets of its next request, the counts of its
/// last census, the job in hand, and the state of its work on the open requests.
#[derive(Drop)]
pub struct Party<N: Name> {
    pub(crate) system: Arc<SharedSystem<N>>,
    pub(crate) alloc: Global,
    pub(crate) role: Role<N>,
    pub(crate) targets: NextTargets,
    /// A job that came out of the desk and had no room.
    pub(crate) hand: Option<Query>,
    /// The counts of the last operated census.
    pub(crate) counts: Vec<(u64, u32)>,
    /// The state of the coordinator's work on the open requests.
    pub(crate) drive: Drive<Query>,
}

impl<N: Name> Model for Party<N> {
    ghost use Rattle.std.specs.Prelude.{◌≡◌};
    ghost use Rattle.parties.specs.Acted.{PartySeen, IsRole};

    ghost Value = { PartySeen N };

    ghost view = { λ p. record {
      role = p.role;
      targets = p.targets;
      counts = p.counts.items;
      hand = p.hand;
      drive = p.drive;
    } };

    ghost invariant = { λ p. IsRole p.role };
}

impl<N: Name> Party<N> {
    /// Makes a client.
    pub fn new(alloc: Global, system: Arc<SharedSystem<N>>) -> Party<N>
        ensures { result ≡ party_as Role.Shares }
    {
        Party {
            system,
            alloc,
            role: Role::Shares,
            targets: NextTargets::none(alloc),
            hand: None,
            counts: Vec::new(alloc),
            drive: Drive::none(alloc),
        }
    }

    /// Makes the coordinator.
    pub fn coordinator(
        alloc: Global,
        system: Arc<SharedSystem<N>>,
        steps: CoordinatorCore<N>,
    ) -> Party<N>
        ensures { result ≡ party_as (Role.Coordinates steps) }
    {
        Party {
            system,
            alloc,
            role: Role::Coordinates(steps),
            targets: NextTargets::none(alloc),
            hand: None,
            counts: Vec::new(alloc),
            drive: Drive::none(alloc),
        }
    }

    pub fn alloc(&self) -> Global {
        self.alloc
    }

    /// Makes a client of the same system. Refused only if memory is refused.
    pub fn fork(&self) -> Result<Party<N>, AllocError>
        ensures { IfOk result (λ p. p ≡ party_as Role.Shares) }
    {
        let system = Arc::try_clone(&self.system)?;
        Ok(Party::new(self.alloc, system))
    }

    /// Does an act. Returns the act's number, or why it isn't done.
    #[inline(always)]
    pub fn act(&mut self, act: Act) -> Result<u64, Fault>
        ensures { Acts N.board.places self.old act result self.new }
    {
        match act {
            Act::BackEdge => self.back_edge(),
            Act::Call(method) => self.call(method),
            Act::Ret => self.ret(),
            Act::Publish => self.publish(),
            Act::ToVm => self.to_vm(),
            Act::FromVm => self.from_vm(),
            Act::ToNative => self.to_native(),
            Act::FromNative => self.from_native(),
            Act::Block => self.block(),
            Act::Unblock => self.unblock(),
            Act::StopNext => self.stop_next(),
            Act::StopServe => self.stop_serve(),
            Act::Start => self.start(),
            Act::Exit => self.exit(),
            Act::Name => self.name(),
            Act::Place => self.place(),
            Act::State => self.state(),
            Act::Depth => self.depth(),
            Act::Target(name) => self.target(name),
            Act::TargetAll => self.target_all(),
            Act::Submit(ask) => self.submit(ask),
            Act::Install(method) => self.install(method),
            Act::Invalidate(serial) => self.invalidate(serial),
            Act::Reply(op, name) => self.reply(op, name),
            Act::LiveAfter(name) => self.live_after(name),
            Act::OpenKind => self.open_kind(),
            Act::Pending => self.pending(),
            Act::Forget => self.forget(),
            Act::Open => self.open(),
            Act::Tell(name) => self.tell(name),
            Act::Hold(place) => self.hold(place),
            Act::Serve(place) => self.serve(place),
            Act::Release(place) => self.release(place),
            Act::Operate => self.operate(),
            Act::Counted(serial) => self.counted(serial),
            Act::Close(number) => self.close(number),
            Act::Advance => self.advance(),
            Act::CalledOperation => self.called_operation(),
            Act::CalledPlace => self.called_place(),
            Act::Awaited => self.awaited(),
            Act::AwaitedAfter(name) => self.awaited_after(name),
            Act::AwaitedPlace(name) => self.awaited_place(name),
            Act::Reclaim(serial) => self.reclaim(serial),
            Act::Weigh(serial) => self.weigh(serial),
        }
    }
}
