// The desk queue, in 101 bytes that the host holds (request S-8).
ghost use Rattle.std.specs.Prelude.{◌≡◌};
ghost use Rattle.queue_turns.specs.Meaning.Queue.{post_number, after_post, serve_answer, after_serve};
ghost use Rattle.queue_bytes.specs.Meaning.Bytes.{queue_of, bytes_after_post, bytes_after_serve};
ghost use Rattle.queue_bytes.specs.Meaning.Answer.{given};

use queue_bytes::{Served, post, serve};

// Puts an hour behind those that its area has waiting: 0. Or refuses by 61 to 63, asked in that order, with every
// byte unchanged.
#[unsafe(no_mangle)]
pub extern "C" fn lta_queue_post(queue: &mut [u8; 101], area: u32, hour: u32) -> u32
    ensures number { result ≡ post_number area hour (queue_of queue.old) }
    ensures queue { queue_of queue.new ≡ after_post area hour (queue_of queue.old) }
    ensures bytes { queue.new ≡ bytes_after_post area hour queue.old }
{
    post(queue, area, hour)
}

// Takes the earliest posted hour of the next area in turn that has one waiting. Or answers 64 where none waits,
// with every byte unchanged.
#[unsafe(no_mangle)]
pub extern "C" fn lta_queue_serve(queue: &mut [u8; 101]) -> Served
    ensures answer { result ≡ given (serve_answer (queue_of queue.old)) }
    ensures queue { queue_of queue.new ≡ after_serve (queue_of queue.old) }
    ensures bytes { queue.new ≡ bytes_after_serve queue.old }
{
    serve(queue)
}
