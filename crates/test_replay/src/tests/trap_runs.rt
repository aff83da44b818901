// Cases that are easily confused, as `rows` computes them.
pub const RUNS: &str = "\
start_order
size 1 1 1 => ok
start => thread 1 place 0; start => refused PlacesFull
ask census => asked 1; open => open 1 census; start => refused SafepointOpen; tell 1 => told; hold 0 => ok
operate => census; clear 0 => ok; release 0 => ok; start => refused SafepointOpen; close => closed 1
start => refused PlacesFull; wake 0 => ok; cross 0 => go; exit 0 => exited 1; start => thread 2 place 0

hold_and_release
size 1 1 1 => ok
release 1 => refused NoSuchPlace; release 0 => refused Illegal Vacant; start => thread 1 place 0
release 0 => refused NotHeld
ask depth 1 => asked 1; open => open 1 handshake; tell 1 => told; release 0 => refused NotHeld; hold 0 => ok
hold 0 => refused Held; release 0 => ok; release 0 => refused NotHeld; hold 0 => ok

look_order
size 2 1 1 => ok
look 1 2 => refused Unknown
install 0 => code 1; look 1 2 => refused NotNotEntrant; invalidate 1 => ok
look 1 2 => refused NoSuchPlace; look 1 1 => clear; weigh 1 => not looked 0; look 1 0 => clear
weigh 1 => retired

tell_order
size 1 4 2 => ok
tell 1 => refused NothingOpen
one thread runs
ask depth 1 => asked 1; open => open 1 handshake; tell 2 => refused NotOf; tell 1 => told
tell 1 => refused AlreadyTold
edge 0 => stop 1; take 0 => ok; finish 0 => reply 0; clear 0 => ok; tell 1 => refused AlreadyTold
cross 0 => go; exit 0 => exited 1; tell 1 => gone; close => closed 1; tell 1 => refused NothingOpen
ask census => asked 2; open => open 2 census; tell 1 => gone; tell 2 => refused NotOf

resolve_by_method
size 1 4 2 => ok
resolve 2 => refused NoSuchMethod; resolve 1 => none
install 1 => code 1; resolve 1 => code 1; resolve 0 => none; invalidate 1 => ok; resolve 1 => none
resolve 2 => refused NoSuchMethod

take_beside_an_untold_census
size 1 4 2 => ok
one thread runs
ask depth 1 => asked 1; open => open 1 handshake; tell 1 => told
edge 0 => stop 1; hold 0 => ok; finish 0 => reply 0; clear 0 => ok; release 0 => ok; close => closed 1
ask census => asked 2; open => open 2 census; take 0 => ok; cross 0 => go; tell 1 => told
edge 0 => stop 2; take 0 => refused NotDone

close_order
size 1 4 2 => ok
close => refused NothingOpen
one thread runs
ask depth 1 => asked 1; open => open 1 handshake; close => refused NotDone; tell 1 => told
close => refused NotDone; tonative 0 => ok; hold 0 => ok; close => refused Held; finish 0 => reply 0
release 0 => ok; close => refused NotDone; hold 0 => ok; clear 0 => ok; close => refused Held; release 0 => ok
close => closed 1

census_of_nobody
size 1 1 1 => ok
ask census => asked 1; open => open 1 census; close => refused NotDone; operate => census
operate => refused AlreadyDone; close => closed 1

operate_order
size 1 4 2 => ok
operate => refused NothingOpen
one thread runs
ask depth 9 => asked 1; open => open 1 handshake; operate => refused NotOf; close => closed 1
ask census => asked 2; open => open 2 census
begin 0 => ok; operate => refused NotAllHeld; end 0 => ok
tell 1 => told
edge 0 => stop 2; hold 0 => ok
begin 0 => ok; operate => refused Publishing; end 0 => ok
operate => census; release 0 => ok; operate => refused AlreadyDone; close => refused NotDone; take 0 => ok
clear 0 => ok; close => closed 2

state_before_held
size 1 4 2 => ok
one thread runs
ask depth 1 => asked 1; open => open 1 handshake; tell 1 => told
edge 0 => stop 1; hold 0 => ok; wake 0 => refused Illegal AtPoll(Java); take 0 => refused Held
finish 0 => reply 0; clear 0 => ok; release 0 => ok; take 0 => ok; cross 0 => go; close => closed 1
tonative 0 => ok
ask depth 1 => asked 2; open => open 2 handshake; tell 1 => told; hold 0 => ok
take 0 => refused Illegal InNative(Java); wake 0 => refused Held

census_without_zeros
size 1 4 3 => ok
one thread runs
install 0 => code 1; install 1 => code 2; install 2 => code 3; enter 0 0 1 => entered
begin 0 => ok; change 0 => change 1 +1; end 0 => ok
leave 0 => go; enter 0 1 2 => entered; enter 0 1 2 => entered
begin 0 => ok; change 0 => change 1 -1; change 0 => change 2 +2; end 0 => ok
count 1 => count 0; count 2 => count 2; count 3 => count 0
ask census => asked 1; open => open 1 census; tell 1 => told; tonative 0 => ok; hold 0 => ok
operate => census 2:2

acts_by_state
size 1 1 1 => ok
start => thread 1 place 0
cross, enter 0, leave, edge, tovm, fromvm, tonative, block, exit, take, finish, clear | # 0 => refused Illegal New
wake 0 => ok
begin, wake, enter 0, leave, edge, tovm, fromvm, tonative, block, exit, take, finish, clear | # 0 => refused Illegal NewTrans
cross 0 => go
wake, cross, fromvm, block, take, finish, clear | # 0 => refused Illegal InJava
tonative 0 => ok
begin, cross, enter 0, leave, edge, tovm, fromvm, tonative, block, exit, take, finish, clear | # 0 => refused Illegal InNative(Java)
wake 0 => ok
begin, wake, enter 0, leave, edge, tovm, fromvm, tonative, block, exit, take, finish, clear | # 0 => refused Illegal NativeTrans(Java)
cross 0 => go; edge 0 => go; tovm 0 => ok
wake, cross, enter 0, leave, edge, tovm, take, finish, clear | # 0 => refused Illegal InVm
tonative 0 => ok
begin, cross, enter 0, leave, edge, tovm, fromvm, tonative, block, exit, take, finish, clear | # 0 => refused Illegal InNative(Vm)
wake 0 => ok
begin, wake, enter 0, leave, edge, tovm, fromvm, tonative, block, exit, take, finish, clear | # 0 => refused Illegal NativeTrans(Vm)
cross 0 => go; block 0 => ok
begin, cross, enter 0, leave, edge, tovm, fromvm, tonative, block, exit, take, finish, clear | # 0 => refused Illegal Blocked
wake 0 => ok
begin, wake, enter 0, leave, edge, tovm, fromvm, tonative, block, exit, take, finish, clear | # 0 => refused Illegal BlockedTrans
cross 0 => go
ask depth 1 => asked 1; open => open 1 handshake; tell 1 => told; fromvm 0 => stop 1
begin, wake, cross, enter 0, leave, edge, tovm, fromvm, tonative, block, exit, finish, clear | # 0 => refused Illegal AtPoll(Java)
take 0 => ok
wake, enter 0, leave, edge, tovm, fromvm, tonative, block, exit, take | # 0 => refused Illegal Serving(Java)
finish 0 => reply 0; clear 0 => ok; cross 0 => go; edge 0 => go; close => closed 1; tovm 0 => ok
tonative 0 => ok; wake 0 => ok
ask depth 1 => asked 2; open => open 2 handshake; tell 1 => told; cross 0 => stop 2
begin, wake, cross, enter 0, leave, edge, tovm, fromvm, tonative, block, exit, finish, clear | # 0 => refused Illegal AtPoll(Vm)
take 0 => ok
wake, enter 0, leave, edge, tovm, fromvm, tonative, block, exit, take | # 0 => refused Illegal Serving(Vm)
cross 0 => stop 2; take 0 => ok; finish 0 => reply 0; clear 0 => ok; cross 0 => go; fromvm 0 => go
exit 0 => exited 1
begin, wake, cross, enter 0, leave, edge, tovm, fromvm, tonative, block, exit, take, finish, clear, change, end, hold, release, stack | # 0 => refused Illegal Vacant

acts_while_publishing
size 1 1 1 => ok
one thread runs
begin 0 => ok
begin, wake, cross, enter 0, leave, edge, tovm, fromvm, tonative, block, exit, take, finish, clear, hold, release | # 0 => refused Publishing
stack 0 => stack; change 0 => change none; end 0 => ok
end 0 => refused NotBegun; release 0 => refused NotHeld
";
