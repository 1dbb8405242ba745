// The call for C, by the name and the arguments of include/tamp.h. (tamp's `tamp_call` again: a crate is a library or a static library, and tests link the first.)
#![tactic(auto)]

ghost use Rattle.tamp.specs.Left.{Promise};

use tamp::Answer;

#[unsafe(no_mangle)]
pub extern "C" fn tamp_call(
    message: &[u8],
    image: &[u8],
    verdict: &[u8],
    reply: &mut [u8],
    next: &mut [u8],
) -> Answer
    ensures { Promise
        message.now
        image.now
        verdict.now
        reply.old
        next.old
        result
        reply.new
        next.new }
{
    tamp::tamp_call(message, image, verdict, reply, next)
}
