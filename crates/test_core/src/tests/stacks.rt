// Tests of `frames`. A frame is pushed by its method and, if it has code, the code's slot and serial.
use super::{Player, number_at, play, told};
use frames::image::{DEPTH, Image};
use frames::{CodeId, Frame};
use std::alloc::Global;
use std::process::Abort;

impl Player for Image {
    fn answer<R: Abort>(&mut self, rt: &R, alloc: Global, call: &str, numbers: &[u64]) -> String {
        match call {
            "push" => told(rt, alloc, self.push(frame(rt, numbers))),
            "pop" => told(rt, alloc, self.pop()),
            "begin" => told(rt, alloc, self.begin()),
            "keep" => told(rt, alloc, self.begin_keeping()),
            "next" => told(rt, alloc, self.next_change()),
            "end" => told(rt, alloc, self.end()),
            _ => told_by(rt, alloc, self, call, numbers),
        }
    }
}

// The answers of the calls that change nothing.
fn told_by(rt: &impl Abort, alloc: Global, image: &Image, call: &str, numbers: &[u64]) -> String {
    match call {
        "frames" => told(rt, alloc, image.frames()),
        "depth" => told(rt, alloc, image.depth()),
        "publishing" => told(rt, alloc, image.is_publishing()),
        "settled" => told(rt, alloc, image.is_settled()),
        "unsettled" => told(rt, alloc, image.unsettled()),
        "net" => told(rt, alloc, image.net(number_at(rt, numbers, 0))),
        "count" => told(rt, alloc, image.count_of(number_at(rt, numbers, 0))),
        "top" => told(rt, alloc, image.top_serial()),
        _ => panic!(rt; "no such call"),
    }
}

fn frame(rt: &impl Abort, numbers: &[u64]) -> Frame {
    let method = small(number_at(rt, numbers, 0));
    if numbers.len() == 1 {
        return Frame { method, code: None };
    }
    let slot = small(number_at(rt, numbers, 1));
    let serial = number_at(rt, numbers, 2);
    let code = Some(CodeId { slot, serial });
    Frame { method, code }
}

// All methods and slots of the rows are less than 4096.
fn small(number: u64) -> u32 {
    (number % 4096) as u32
}

// Plays on the image of an empty stack.
fn play_on_image(rt: &impl Abort, alloc: Global, rows: &str) {
    let mut image = Image::new(alloc).expect(rt, "no memory");
    play(rt, alloc, &mut image, rows);
}

#[test]
fn a_publication_gives_the_difference(rt: HostRuntime) {
    let rows = "\
settled => true; top => 0; depth => 0; publishing => false
push 0 0 1 => Ok(()); push 1 => Ok(()); top => 0; push 0 0 1 => Ok(()); top => 1
frames => [Frame { method: 0, code: Some(CodeId { slot: 0, serial: 1 }) }, Frame { method: 1, code: None }, Frame { method: 0, code: Some(CodeId { slot: 0, serial: 1 }) }]
depth => 3; count 1 => 2; count 2 => 0; settled => false
next => None; begin => Ok(()); publishing => true
begin => Err(Publishing); push 0 => Err(Publishing); pop => Err(Publishing); end => Err(ChangesLeft)
next => Some(Change { code: CodeId { slot: 0, serial: 1 }, by: 2 })
next => None; settled => false
end => Ok(()); publishing => false; settled => true; end => Err(NotBegun)
pop => Ok(Frame { method: 0, code: Some(CodeId { slot: 0, serial: 1 }) })
settled => false; begin => Ok(())
next => Some(Change { code: CodeId { slot: 0, serial: 1 }, by: -1 })
end => Ok(()); settled => true";
    play_on_image(&rt, rt.alloc(), rows);
}

#[test]
fn changes_rise_by_serial_and_then_by_slot(rt: HostRuntime) {
    let rows = "\
push 0 1 2 => Ok(()); push 0 5 1 => Ok(()); push 0 0 2 => Ok(()); push 0 1 2 => Ok(()); begin => Ok(())
next => Some(Change { code: CodeId { slot: 5, serial: 1 }, by: 1 })
next => Some(Change { code: CodeId { slot: 0, serial: 2 }, by: 1 })
next => Some(Change { code: CodeId { slot: 1, serial: 2 }, by: 2 })
next => None; end => Ok(())";
    play_on_image(&rt, rt.alloc(), rows);
}

#[test]
fn nets_follow_pushes_and_pops(rt: HostRuntime) {
    let rows = "\
push 0 0 1 => Ok(())
pop => Ok(Frame { method: 0, code: Some(CodeId { slot: 0, serial: 1 }) })
settled => true; begin => Ok(()); next => None; end => Ok(())
push 0 0 1 => Ok(()); push 0 0 2 => Ok(()); push 0 0 1 => Ok(())
pop => Ok(Frame { method: 0, code: Some(CodeId { slot: 0, serial: 1 }) })
net 1 => 1; net 2 => 1; unsettled => 2
pop => Ok(Frame { method: 0, code: Some(CodeId { slot: 0, serial: 2 }) })
net 2 => 0; unsettled => 1";
    play_on_image(&rt, rt.alloc(), rows);
}

#[test]
fn the_code_called_last_is_among_the_changes(rt: HostRuntime) {
    let rows = "\
push 0 0 3 => Ok(()); push 0 0 1 => Ok(()); unsettled => 2; begin => Ok(())
next => Some(Change { code: CodeId { slot: 0, serial: 1 }, by: 1 })
net 1 => 0; net 3 => 1
next => Some(Change { code: CodeId { slot: 0, serial: 3 }, by: 1 })
end => Ok(())
pop => Ok(Frame { method: 0, code: Some(CodeId { slot: 0, serial: 1 }) })
net 1 => -1; unsettled => 1; push 0 0 1 => Ok(()); settled => true";
    play_on_image(&rt, rt.alloc(), rows);
}

#[test]
fn a_stack_has_256_frames_at_most(rt: HostRuntime) {
    assert!(rt; DEPTH == 256);
    let rows = "\
pop => Err(EmptyStack)
0 to 255 | push # 3 9 => Ok(())
push 0 => Err(DepthFull); depth => 256; begin => Ok(()); push 0 => Err(DepthFull)
next => Some(Change { code: CodeId { slot: 3, serial: 9 }, by: 256 })
end => Ok(())
255 to 0 | pop => Ok(Frame { method: #, code: Some(CodeId { slot: 3, serial: 9 }) })
begin => Ok(()); pop => Err(EmptyStack)
next => Some(Change { code: CodeId { slot: 3, serial: 9 }, by: -256 })
end => Ok(())";
    play_on_image(&rt, rt.alloc(), rows);
}

#[test]
fn an_image_has_room_for_512_nets(rt: HostRuntime) {
    let rows = "\
256 to 1 | push 0 0 # => Ok(())
begin => Ok(())
1 to 256 | next => Some(Change { code: CodeId { slot: 0, serial: # }, by: 1 })
end => Ok(())
1 to 256 | pop => Ok(Frame { method: 0, code: Some(CodeId { slot: 0, serial: # }) })
1 to 256 | push 0 1 # => Ok(())
unsettled => 512; net 256 => 0; begin => Ok(())
1 to 256 | next => Some(Change { code: CodeId { slot: 0, serial: # }, by: -1 }); next => Some(Change { code: CodeId { slot: 1, serial: # }, by: 1 })
end => Ok(()); settled => true";
    play_on_image(&rt, rt.alloc(), rows);
}

#[test]
fn slots_that_share_a_mark_are_told_apart(rt: HostRuntime) {
    let rows = "\
push 0 1027 7 => Ok(()); push 0 3 7 => Ok(()); push 0 2051 7 => Ok(()); push 0 3 7 => Ok(()); push 0 1027 7 => Ok(()); push 0 1027 7 => Ok(())
pop => Ok(Frame { method: 0, code: Some(CodeId { slot: 1027, serial: 7 }) })
unsettled => 3; net 7 => 5; begin => Ok(())
next => Some(Change { code: CodeId { slot: 3, serial: 7 }, by: 2 })
next => Some(Change { code: CodeId { slot: 1027, serial: 7 }, by: 2 })
next => Some(Change { code: CodeId { slot: 2051, serial: 7 }, by: 1 })
end => Ok(())";
    play_on_image(&rt, rt.alloc(), rows);
}

#[test]
fn more_codes_may_move_than_there_is_room_for(rt: HostRuntime) {
    let rows = "\
push 0 9 5000 => Ok(())
1 to 1999 | push 0 # # => Ok(()); pop => Ok(Frame { method: 0, code: Some(CodeId { slot: #, serial: # }) })
100 to 999 | push 0 # 2# => Ok(()); pop => Ok(Frame { method: 0, code: Some(CodeId { slot: #, serial: 2# }) })
unsettled => 1; settled => false; push 0 8 10 => Ok(()); begin => Ok(())
next => Some(Change { code: CodeId { slot: 8, serial: 10 }, by: 1 })
next => Some(Change { code: CodeId { slot: 9, serial: 5000 }, by: 1 })
next => None; end => Ok(()); settled => true";
    play_on_image(&rt, rt.alloc(), rows);
}

#[test]
fn a_code_may_follow_another_in_its_slot_after_a_publication(rt: HostRuntime) {
    let rows = "\
push 0 0 1 => Ok(()); push 0 1 2 => Ok(()); keep => Ok(())
next => Some(Change { code: CodeId { slot: 0, serial: 1 }, by: 1 })
next => Some(Change { code: CodeId { slot: 1, serial: 2 }, by: 1 })
end => Ok(()); settled => true; unsettled => 0; net 1 => 0
pop => Ok(Frame { method: 0, code: Some(CodeId { slot: 1, serial: 2 }) })
pop => Ok(Frame { method: 0, code: Some(CodeId { slot: 0, serial: 1 }) })
net 1 => -1; net 2 => -1; unsettled => 2; keep => Ok(())
next => Some(Change { code: CodeId { slot: 0, serial: 1 }, by: -1 })
next => Some(Change { code: CodeId { slot: 1, serial: 2 }, by: -1 })
next => None; end => Ok(()); settled => true
push 0 0 4 => Ok(()); push 0 1025 3 => Ok(()); push 0 1 2 => Ok(()); net 1 => 0; net 4 => 1; unsettled => 3; keep => Ok(())
next => Some(Change { code: CodeId { slot: 1, serial: 2 }, by: 1 })
next => Some(Change { code: CodeId { slot: 1025, serial: 3 }, by: 1 })
next => Some(Change { code: CodeId { slot: 0, serial: 4 }, by: 1 })
next => None; end => Ok(())
keep => Ok(()); next => None; end => Ok(()); settled => true
pop => Ok(Frame { method: 0, code: Some(CodeId { slot: 1, serial: 2 }) })
keep => Ok(())
next => Some(Change { code: CodeId { slot: 1, serial: 2 }, by: -1 })
next => None; end => Ok(()); keep => Ok(()); next => None; end => Ok(())
push 0 1 2 => Ok(()); settled => false; unsettled => 1; net 2 => 1";
    play_on_image(&rt, rt.alloc(), rows);
}
