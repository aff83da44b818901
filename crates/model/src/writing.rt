// Writes the text of a reply into borrowed room.
ghost use Rattle.std.specs.Prelude.{◌≡◌, ◌++◌, ◌∷◌, ◌≤◌, ◌<◌, ◌^◌, [], Some, IfOk, IfErr, OnOk, OnErr, length, take, drop, vec_capacity};
ghost use Rattle.replay.specs.Printed.{reply_text};
ghost use Rattle.model.specs.Stepped.{WhyUnknown, WhyWaits};

use crate::line_model::AnswerFault;
use replay::engine::Reply;
use replay::print::put_reply;

/// Makes the line of text for a reply, and returns its length without its newline.
pub(crate) fn write_text(text: &mut Vec<u8>, said: &Reply) -> Result<usize, AnswerFault>
    requires room { 128 ≤ vec_capacity text.old }

    ensures text { OnOk result (text.new.items ≡ reply_text said.now ++ (10 ∷ [])) }
    ensures length { IfOk result (λ n. n ≡ length (reply_text said.now)) }
    ensures small { IfOk result (λ n. n < 2 ^ 63) }
    ensures why { IfErr result (λ fault. WhyUnknown fault (Some said.now)) }
    ensures kept { vec_capacity text.old ≤ vec_capacity text.new }
{
    text.clear();
    match put_reply(text, said) {
        Ok(()) => Ok(text.len() - 1),
        Err(_) => Err(AnswerFault::Unwritten),
    }
}

/// Puts the text of a reply at the front of the room, without a newline, and returns its length.
pub(crate) fn write_into(
    text: &mut Vec<u8>,
    said: &Reply,
    answer: &mut [u8],
) -> Result<usize, AnswerFault>
    requires room { 128 ≤ vec_capacity text.old }

    ensures given { IfOk result (λ n. take n answer.new ≡ reply_text said.now) }
    ensures room { IfOk result (λ n. n ≤ length answer.new) }
    ensures behind { IfOk result (λ n. drop n answer.new ≡ drop n answer.old) }

    ensures why { IfErr result (λ fault. WhyWaits fault (Some said.now) (length answer.old)) }
    ensures unwritten { OnErr result (answer.new ≡ answer.old) }
    ensures kept { vec_capacity text.old ≤ vec_capacity text.new }
{
    let n = write_text(text, said)?;
    if answer.len() < n {
        return Err(AnswerFault::TooLong(n));
    }
    answer[..n].copy_from_slice(&text[..n]);
    Ok(n)
}
