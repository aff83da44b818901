// Handshakes, safepoints and code that is reclaimed.
pub const RUNS: &str = "\
look_before_a_round
size 1 4 2 => ok
one thread runs
install 0 => code 1; enter 0 0 1 => entered; invalidate 1 => ok
weigh 1 => not looked 0; look 1 0 => late; count 1 => count 0; state 1 => not entrant
free 1 => refused NotZombie

reclaimed_after_all_published
size 1 4 2 => ok
one thread runs
install 0 => code 1; enter 0 0 1 => entered; invalidate 1 => ok
weigh 1 => not looked 0; look 1 0 => late; count 1 => count 0; state 1 => not entrant
free 1 => refused NotZombie; round => ok; look 1 0 => late
begin 0 => ok; change 0 => change 1 +1; end 0 => ok
look 1 0 => clear; weigh 1 => used 1; leave 0 => go; weigh 1 => used 1
begin 0 => ok; change 0 => change 1 -1; end 0 => ok
weigh 1 => retired; state 1 => zombie; free 1 => ok; state 1 => freed; count 1 => refused Unknown

publication_begun_before_the_round
size 1 4 2 => ok
one thread runs
install 0 => code 1
begin 0 => ok; invalidate 1 => ok; round => ok; end 0 => ok
look 1 0 => late
begin 0 => ok; end 0 => ok
look 1 0 => clear; weigh 1 => retired

slot_used_again
size 1 1 1 => ok
one thread runs
install 0 => code 1; install 0 => refused TableFull; invalidate 1 => ok; install 0 => refused TableFull
round => ok
begin 0 => ok; end 0 => ok
look 1 0 => clear; weigh 1 => retired; free 1 => ok; install 0 => code 2; enter 0 0 1 => wrong method
enter 0 0 2 => entered; enter 0 0 3 => refused Unknown; resolve 0 => code 2

install_over
size 1 4 2 => ok
one thread runs
install 0 => code 1; enter 0 0 1 => entered
install 0 => code 2; state 1 => not entrant; resolve 0 => code 2; enter 0 0 1 => wrong method
enter 0 0 2 => entered; invalidate 1 => refused NotInUse
look 1 0 => late; round => ok
begin 0 => ok; change 0 => change 1 +1; change 0 => change 2 +1; end 0 => ok
look 1 0 => clear; weigh 1 => used 1
install 0 => code 3; install 0 => code 4; install 0 => refused TableFull; state 4 => in use
state 3 => not entrant

next_code_of_a_method
size 1 4 2 => ok
one thread runs
install 0 => code 1; enter 0 0 1 => entered; invalidate 1 => ok; install 0 => code 2; state 1 => not entrant
resolve 0 => code 2; enter 0 0 1 => wrong method; enter 0 0 2 => entered; look 1 0 => late; round => ok
begin 0 => ok; change 0 => change 1 +1; change 0 => change 2 +1; end 0 => ok
look 1 0 => clear; weigh 1 => used 1

place_used_again
size 1 4 2 => ok
one thread runs
ask depth 1 => asked 1; exit 0 => exited 1; start => thread 2 place 0; open => open 1 handshake
tell 1 => gone; tell 2 => refused NotOf; close => closed 1

two_operations_in_turn
size 1 4 2 => ok
one thread runs
ask depth 1 => asked 1; ask top 1 => asked 2
open => open 1 handshake; open => open 2 handshake; tell 1 => told; exit 0 => refused OperationPending
edge 0 => stop 1; clear 0 => refused Illegal AtPoll(Java); take 0 => ok; clear 0 => refused NotDone
finish 0 => reply 0; finish 0 => refused AlreadyDone; close => refused NotDone; clear 0 => ok; cross 0 => go
close => closed 1; open => refused QueueEmpty; tell 1 => told
edge 0 => stop 2; take 0 => ok; finish 0 => reply 0; clear 0 => ok; cross 0 => go; close => closed 2

four_handshakes
size 1 4 2 => ok
one thread runs
enter 0 1 => entered
ask depth 1 => asked 1; ask top 1 => asked 2; ask depth 1 => asked 3; ask depth 2 => asked 4
ask census => asked 5; open => open 1 handshake; open => open 2 handshake; open => open 3 handshake
open => open 4 handshake; open => refused AlreadyOpen; tell 1 => told; tell 1 => told
edge 0 => stop 2; take 0 => ok; finish 0 => reply 1; clear 0 => ok; cross 0 => stop 2
close 3 => refused NotDone; close => closed 1; take 0 => ok; tell 1 => told; finish 0 => reply 0
clear 0 => ok; finish 0 => reply 1; clear 0 => ok; tell 1 => refused AlreadyTold; cross 0 => go
close 3 => closed 3; open => refused AlreadyOpen; close => closed 2; close 1 => refused NotOf
tell 1 => refused NotOf; tell 2 => gone; close => closed 4; open => open 5 census

second_told_alone
size 1 4 2 => ok
one thread runs
ask depth 2 => asked 1; ask depth 1 => asked 2
open => open 1 handshake; open => open 2 handshake; tell 1 => told
edge 0 => stop 2; take 0 => ok; finish 0 => reply 0; clear 0 => ok; cross 0 => go; exit 0 => exited 1
start => thread 2 place 0; tell 2 => gone; close => closed 1; close => closed 2

held_in_native
size 1 4 2 => ok
one thread runs
install 0 => code 1; enter 0 0 1 => entered; tonative 0 => ok
ask count 1 1 => asked 1; open => open 1 handshake; hold 0 => refused NotTold; tell 1 => told; hold 0 => ok
wake 0 => refused Held; finish 0 => refused Unpublished
begin 0 => ok; change 0 => change 1 +1; end 0 => ok
finish 0 => reply 1; clear 0 => ok; release 0 => ok; wake 0 => ok; cross 0 => go; close => closed 1
count 1 => count 1

queue_of_censuses
size 1 1 1 => ok
1 to 64 | ask census => asked #
ask census => refused QueueFull; open => open 1 census
ask census => asked 65; operate => census; close => closed 1

safepoint_of_two_threads
size 3 4 2 => ok
one thread runs
start => thread 2 place 1; begin 1 => ok; end 1 => ok; wake 1 => ok; cross 1 => go
install 0 => code 1; enter 0 0 1 => entered; enter 1 0 1 => entered; enter 1 0 1 => entered; tonative 0 => ok
ask census => asked 1; open => open 1 census; start => refused SafepointOpen; tell 1 => told; tell 2 => told
hold 0 => ok; hold 1 => refused NotSafe
edge 1 => stop 1; operate => refused NotAllHeld; take 1 => refused NotDone; hold 1 => ok
operate => refused Unpublished
begin 0 => ok; change 0 => change 1 +1; end 0 => ok
begin 1 => ok; change 1 => change 1 +2; end 1 => ok
operate => census 1:3; operate => refused AlreadyDone; close => refused Held; clear 0 => ok; clear 1 => ok
release 0 => ok; release 1 => ok; close => closed 1; take 1 => ok; cross 1 => go; start => thread 3 place 2

queue_of_handshakes
size 1 1 1 => ok
1 to 64 | ask depth 1 => asked #
ask depth 1 => refused QueueFull; open => open 1 handshake
ask depth 1 => asked 65; tell 1 => gone; close => closed 1

asks_of_a_stack
size 1 4 2 => ok
one thread runs
install 0 => code 1; enter 0 0 1 => entered; enter 0 1 => entered; enter 0 0 1 => entered
begin 0 => ok; change 0 => change 1 +2; end 0 => ok
ask depth 1 => asked 1; open => open 1 handshake; tell 1 => told; edge 0 => stop 1; take 0 => ok; finish 0 => reply 3; clear 0 => ok; cross 0 => go; close => closed 1
ask count 1 1 => asked 2; open => open 2 handshake; tell 1 => told; edge 0 => stop 2; take 0 => ok; finish 0 => reply 2; clear 0 => ok; cross 0 => go; close => closed 2
ask count 2 1 => asked 3; open => open 3 handshake; tell 1 => told; edge 0 => stop 3; take 0 => ok; finish 0 => reply 0; clear 0 => ok; cross 0 => go; close => closed 3
ask top 1 => asked 4; open => open 4 handshake; tell 1 => told; edge 0 => stop 4; take 0 => ok; finish 0 => reply 1; clear 0 => ok; cross 0 => go; close => closed 4
leave 0 => go
begin 0 => ok; change 0 => change 1 -1; end 0 => ok
ask depth 1 => asked 5; open => open 5 handshake; tell 1 => told; edge 0 => stop 5; take 0 => ok; finish 0 => reply 2; clear 0 => ok; cross 0 => go; close => closed 5
ask count 1 1 => asked 6; open => open 6 handshake; tell 1 => told; edge 0 => stop 6; take 0 => ok; finish 0 => reply 1; clear 0 => ok; cross 0 => go; close => closed 6
ask count 2 1 => asked 7; open => open 7 handshake; tell 1 => told; edge 0 => stop 7; take 0 => ok; finish 0 => reply 0; clear 0 => ok; cross 0 => go; close => closed 7
ask top 1 => asked 8; open => open 8 handshake; tell 1 => told; edge 0 => stop 8; take 0 => ok; finish 0 => reply 0; clear 0 => ok; cross 0 => go; close => closed 8

started_after_open
size 1 4 2 => ok
one thread runs
ask depth 1 2 => asked 1; open => open 1 handshake; tell 1 => told
edge 0 => stop 1; take 0 => ok; finish 0 => reply 0; clear 0 => ok; cross 0 => go; exit 0 => exited 1
start => thread 2 place 0; tell 2 => gone; close => closed 1
";
