//! Opens the oldest waiting request if none is open.
ghost use Rattle.std.specs.Prelude.{◌≡◌, ◌⊎◌, [], ℕ, Some, IfSome, IfNone};
ghost use Rattle.desk.specs.declared.entries.Entry.{Entry};
ghost use Rattle.desk.specs.Machine.{Stands};
ghost use Rattle.desk.specs.Fields.{Enters, at};
ghost use Rattle.desk.specs.Targets.{open_kind};

use bodies::Name;
use desk::Desk;
use operations::Kind;
use operations::job::HandshakeOp;

/// Returns the kind of the oldest open request. If none is open, first opens the oldest waiting one. None if none waits
/// either.
#[tactic(auto, using(crate::proofs::Opens::open_behind))]
pub fn open_or_go_on<N: Name, J: HandshakeOp>(desk: &mut Desk<N, J>) -> Option<Kind>
    ensures open { IfSome result (λ kind. open_kind (at desk.new) ≡ Some kind) }
    ensures one { (desk.new ≡ desk.old)
        ⊎ ((n : ℕ) × (receipt : Stands) × Enters desk.old desk.new (Entry.Open n) receipt) }
    ensures empty { IfNone result ((desk.new ≡ desk.old) × ((at desk.old).opened ≡ [])
        × ((at desk.old).waiting ≡ [])) }
{
    let open = desk.open_kind();
    if open.is_some() {
        return open;
    }
    match desk.open() {
        Ok(_) => desk.open_kind(),
        Err(_) => None,
    }
}
