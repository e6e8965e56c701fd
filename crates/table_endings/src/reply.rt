// A signal written to a buffer that the gate has found long enough (refusal 3). It rests on `signal_write`, whose own test can't fail then.
ghost use Rattle.std.specs.Prelude.{◌≡◌, ◌≤◌, length};
ghost use Rattle.signal_write.specs.Writer.{encode_of};
ghost use Rattle.channel.specs.Limits.{signal_most};
ghost use Rattle.table_endings.specs.Reply.{Replied};

use signal_forms::Signal;

// Writes the signal at the buffer's start, and says how many octets that took.
pub fn reply(out: &mut [u8], id: u8, s: Signal) -> usize
    requires { signal_most ≤ length out.old }
    ensures { Replied out.old (encode_of id s) result out.new }
{
    match signal_write::write_signal(out, id, s) {
        None => 0,
        Some(n) => n,
    }
}
