// A setup's reply read back.
ghost use Rattle.std.specs.Prelude.{◌≡◌};
ghost use Rattle.cells.specs.Runs.{same};
ghost use Rattle.armor.specs.Value.{carried};
ghost use Rattle.armor.specs.InnerAnswers.{HoldsReply};
ghost use Rattle.reply.specs.LaidOut.{reply_with};
ghost use Rattle.reply.specs.InnerRead.{ReadsLaidOut};

use armor::Reply;

// What a reply carries, if it is laid out as a setup writes it. Not inlined, as is_written is not, so that gate_fits signs without their frames.
#[inline(never)]
pub fn read(text: &[u8]) -> Option<Reply>
    ensures { ReadsLaidOut text.now result }
{
    let reply = armor::read_reply(text)?;
    if !is_written(text, &reply) {
        return None;
    }
    Some(reply)
}

// Whether a text is what a setup would write of what it carries: their order, one `;` between them and none at the end, and kh's name are
// seen from that at once.
#[inline(never)]
fn is_written(text: &[u8], reply: &Reply) -> bool
    requires { HoldsReply (carried text.now) reply.now }
    ensures { result ≡ same text.now (reply_with (carried text.now)) }
{
    let mut out = [0u8; 1024];
    let len = super::setup(&mut out, reply);
    cells::same(text, &out[..len])
}
