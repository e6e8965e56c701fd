// The names of a view (docs/CHANRUN.md, `V`): a channel's state and its policy, each with its number. What each is called is defined in
// specs/Names.antt; it rests on `text_write` and `text_decimal::write`.
#![tactic(auto)]

ghost use Rattle.std.specs.Prelude.{◌++◌};
ghost use Rattle.text_decimal.specs.NumberText.{number_text};
ghost use Rattle.text_write.specs.Rows.{Writes};
ghost use Rattle.row_view_names.specs.Names.{state_text, policy_text};

use channel::ChannelState;
use credit::CreditFlowPolicy;
use text_decimal::write_number;
use text_write::write_text;

// A name and a number behind it.
fn write_named(out: &mut [u8], at: usize, name: &[u8], n: u16) -> usize
    ensures { Writes out.old at (name.now ++ number_text n) result out.new }
{
    let next = write_text(out, at, name);
    write_number(out, next, n as u64)
}

pub fn write_state(out: &mut [u8], at: usize, state: ChannelState) -> usize
    ensures { Writes out.old at (state_text state) result out.new }
{
    match state {
        ChannelState::Disconnected => write_text(out, at, b"disconnected"),
        ChannelState::Connecting(id) => write_named(out, at, b"connecting:", id as u16),
        ChannelState::PeerConnecting(id) => write_named(out, at, b"peer-connecting:", id as u16),
        ChannelState::Connected => write_text(out, at, b"connected"),
        ChannelState::ConnectFailed(code) => {
            write_named(out, at, b"connect-failed:", codes::result_number(code))
        }
        ChannelState::PeerDisconnecting(id) => {
            write_named(out, at, b"peer-disconnecting:", id as u16)
        }
        ChannelState::Disconnecting(announced) => {
            if announced {
                write_text(out, at, b"disconnecting:announced")
            } else {
                write_text(out, at, b"disconnecting")
            }
        }
    }
}

pub fn write_policy(out: &mut [u8], at: usize, policy: CreditFlowPolicy) -> usize
    ensures { Writes out.old at (policy_text policy) result out.new }
{
    match policy {
        CreditFlowPolicy::Every(n) => write_named(out, at, b"e", n),
        CreditFlowPolicy::MinThreshold(n) => write_named(out, at, b"m", n),
    }
}
