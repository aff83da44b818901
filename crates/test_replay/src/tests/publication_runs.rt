// Threads, their stacks, and the publications of the stacks.
pub const RUNS: &str = "\
interpreted_frame
size 1 4 2 => ok
one thread runs
enter 0 1 => entered; stack 0 => stack 1:i; leave 0 => go; stack 0 => stack; leave 0 => refused EmptyStack

changes_left
size 1 4 2 => ok
one thread runs
install 0 => code 1; enter 0 0 1 => entered; enter 0 0 1 => entered; leave 0 => go; count 1 => count 0
begin 0 => ok; end 0 => refused ChangesLeft; change 0 => change 1 +1; change 0 => change none; end 0 => ok
count 1 => count 1

cancelled_push_and_pop
size 1 4 2 => ok
one thread runs
install 0 => code 1; enter 0 0 1 => entered; leave 0 => go
begin 0 => ok; change 0 => change none; end 0 => ok
count 1 => count 0

partial_publication
size 1 4 2 => ok
one thread runs
install 0 => code 1; install 1 => code 2; enter 0 0 1 => entered; enter 0 1 2 => entered
begin 0 => ok; change 0 => change 1 +1; count 1 => count 1; count 2 => count 0
enter 0 1 => refused Publishing; change 0 => change 2 +1; end 0 => ok; count 2 => count 1

exit_after_publishing
size 1 4 2 => ok
one thread runs
install 0 => code 1; enter 0 0 1 => entered
begin 0 => ok; change 0 => change 1 +1; end 0 => ok
leave 0 => go; exit 0 => refused Unpublished
begin 0 => ok; change 0 => change 1 -1; end 0 => ok
exit 0 => exited 1; count 1 => count 0

stopped_in_the_vm
size 1 4 2 => ok
one thread runs
block 0 => refused Illegal InJava; tovm 0 => ok; enter 0 0 => refused Illegal InVm
ask depth 1 => asked 1; open => open 1 handshake; tell 1 => told
fromvm 0 => stop 1; hold 0 => ok; finish 0 => reply 0; clear 0 => ok; release 0 => ok; take 0 => ok
cross 0 => go; close => closed 1

blocked_and_native
size 1 4 2 => ok
one thread runs
tovm 0 => ok; block 0 => ok; begin 0 => refused Illegal Blocked; wake 0 => ok
fromvm 0 => refused Illegal BlockedTrans; cross 0 => go; tonative 0 => ok
leave 0 => refused Illegal InNative(Vm); wake 0 => ok; cross 0 => go; fromvm 0 => go; enter 0 1 => entered
stack 0 => stack 1:i

wrong_method
size 1 4 2 => ok
one thread runs
install 0 => code 1; enter 0 0 1 => entered; invalidate 1 => ok; enter 0 0 1 => wrong method
enter 0 0 => entered; resolve 0 => none
install 0 => code 2; resolve 0 => code 2; invalidate 1 => refused NotInUse; enter 0 1 2 => refused NotOf
enter 0 0 3 => refused Unknown; state 2 => in use; state 3 => refused Unknown; stack 0 => stack 0:1 0:i

every_refusal
size 2 2 2 => ok
begin 2 => refused NoSuchPlace; begin 0 => refused Illegal Vacant; start => thread 1 place 0
enter 0 0 => refused Illegal New; end 0 => refused NotBegun; change 0 => refused NotBegun
release 0 => refused NotHeld; hold 0 => refused NothingOpen
finish, clear, take, leave, edge, tovm, fromvm, tonative, block, exit, cross | # 0 => refused Illegal New
wake 0 => ok; wake 0 => refused Illegal NewTrans; begin 0 => refused Illegal NewTrans; cross 0 => go
enter 0 2 => refused NoSuchMethod; enter 0 0 1 => refused Unknown; enter 0 0 => refused Unpublished
leave 0 => refused EmptyStack
begin 0 => ok; begin 0 => refused Publishing; stack 0 => stack; wake 0 => refused Publishing
hold 0 => refused Publishing; release 0 => refused Publishing; end 0 => ok
install 2 => refused NoSuchMethod; install 0 => code 1; install 1 => code 2; invalidate 1 => ok
install 0 => refused TableFull; invalidate 1 => refused NotInUse; invalidate 3 => refused Unknown
look 3 0 => refused Unknown; look 2 0 => refused NotNotEntrant; look 1 2 => refused NoSuchPlace
weigh 3 => refused Unknown; weigh 2 => refused NotNotEntrant; free 3 => refused Unknown
free 1 => refused NotZombie; count 3 => refused Unknown; state 3 => refused Unknown
resolve 2 => refused NoSuchMethod; enter 0 0 2 => refused NotOf; enter 0 1 2 => entered
exit 0 => refused StackNotEmpty
begin 0 => ok; end 0 => refused ChangesLeft; change 0 => change 2 +1; end 0 => ok
leave 0 => go; exit 0 => refused Unpublished; start => thread 2 place 1; start => refused PlacesFull
ask depth => refused NoTargets; ask depth 1 1 => refused BadTargets
open => refused QueueEmpty; tell 1 => refused NothingOpen; operate => refused NothingOpen
close => refused NothingOpen
ask depth 1 => asked 1; open => open 1 handshake; open => refused QueueEmpty; operate => refused NotOf
tell 2 => refused NotOf; hold 1 => refused NotOf; hold 0 => refused NotTold; tell 1 => told
tell 1 => refused AlreadyTold; hold 0 => refused NotSafe; close => refused NotDone
begin 0 => ok; change 0 => change 2 -1; end 0 => ok
exit 0 => refused OperationPending; tonative 0 => ok; hold 0 => ok; hold 0 => refused Held
wake 0 => refused Held; clear 0 => refused NotDone; finish 0 => reply 0; finish 0 => refused AlreadyDone
close => refused Held; clear 0 => ok; clear 0 => refused AlreadyDone; hold 0 => refused AlreadyDone
release 0 => ok; close => closed 1; wake 0 => ok; wake 0 => refused Illegal NativeTrans(Java); cross 0 => go
ask top 1 => asked 2; open => open 2 handshake; tell 1 => told
edge 0 => stop 2; edge 0 => refused Illegal AtPoll(Java); hold 0 => ok; take 0 => refused Held
release 0 => ok; take 0 => ok; leave 0 => refused Illegal Serving(Java); finish 0 => reply 0; clear 0 => ok
close => closed 2; finish 0 => refused NothingOpen; clear 0 => refused NothingOpen
ask depth 2 => asked 3; open => open 3 handshake; finish 0 => refused NotOf; clear 0 => refused NotOf
tell 2 => told; hold 1 => ok; finish 1 => reply 0; clear 1 => ok; release 1 => ok; close => closed 3
ask depth 1 => asked 4; open => open 4 handshake; finish 0 => refused NotTold; clear 0 => refused NotTold
tell 1 => told; finish 0 => reply 0; clear 0 => ok; cross 0 => go; close => closed 4
ask census => asked 5; open => open 5 census; start => refused SafepointOpen; operate => refused NotAllHeld
finish 0 => refused Illegal InJava; tell 3 => refused NotOf; tell 0 => refused NotOf; tell 1 => told
tell 2 => told; close => refused NotDone
edge 0 => stop 5; take 0 => refused NotDone; hold 0 => ok; hold 1 => ok; finish 0 => refused NotOf
clear 0 => refused NotDone
begin 0 => ok; operate => refused Publishing; end 0 => ok
close => refused Held; operate => census; operate => refused AlreadyDone; clear 0 => ok; clear 1 => ok
release 0 => ok; release 1 => ok; close => closed 5; take 0 => ok; enter 0 0 => refused Illegal Serving(Java)
cross 0 => go; block 0 => refused Illegal InJava; tovm 0 => ok; edge 0 => refused Illegal InVm
tonative 0 => ok; edge 0 => refused Illegal InNative(Vm); wake 0 => ok
edge 0 => refused Illegal NativeTrans(Vm)
ask count 2 1 => asked 6; open => open 6 handshake; tell 1 => told; cross 0 => stop 6
edge 0 => refused Illegal AtPoll(Vm); take 0 => ok; edge 0 => refused Illegal Serving(Vm); finish 0 => reply 0
clear 0 => ok; cross 0 => go; close => closed 6; block 0 => ok; edge 0 => refused Illegal Blocked
wake 0 => ok; edge 0 => refused Illegal BlockedTrans; cross 0 => go; fromvm 0 => go; tonative 0 => ok
edge 0 => refused Illegal InNative(Java)
";
