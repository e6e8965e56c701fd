// The line of one slot in a view (docs/CHANRUN.md, `V`): its state, our side of the channel, and what `row_view_peer` shows. It is defined in
// specs/SlotLine.antt; it rests on `row_view_names`, `row_view_peer`, `row_columns` and `text_write`.
#![tactic(auto)]

ghost use Rattle.text_write.specs.Rows.{Writes};
ghost use Rattle.row_view_slot.specs.SlotLine.{head_text, local_text, slot_text};

use channel::{ChannelIndex, ChannelState, Slot};
use row_columns::write_columns;
use row_view_names::{write_policy, write_state};
use row_view_peer::write_peer;
use table_identifiers::cid_of;
use text_write::write_character;

// The slot's number and its state.
fn write_head(out: &mut [u8], at: usize, s: u8, state: ChannelState) -> usize
    ensures { Writes out.old at (head_text s state) result out.new }
{
    let mark = write_character(out, at, b'=');
    let number = write_columns(out, mark, &[s as u64]);
    let space = write_character(out, number, b' ');
    write_state(out, space, state)
}

// Our side of the channel.
fn write_local(out: &mut [u8], at: usize, s: u8, x: Slot) -> usize
    ensures { Writes out.old at (local_text s x) result out.new }
{
    let cid = cid_of(ChannelIndex(s));
    let numbers = write_columns(
        out,
        at,
        &[
            x.link as u64,
            cid.0 as u64,
            x.spsm as u64,
            x.mps as u64,
            x.mtu as u64,
        ],
    );
    let space = write_character(out, numbers, b' ');
    let account = x.account;
    let policy = account.policy;
    let name = write_policy(out, space, policy);
    write_columns(
        out,
        name,
        &[account.credits as u64, account.received as u64],
    )
}

// The line of slot s.
pub fn write_slot(out: &mut [u8], at: usize, s: u8, x: Slot) -> usize
    ensures { Writes out.old at (slot_text s x) result out.new }
{
    let state = x.state;
    let head = write_head(out, at, s, state);
    let local = write_local(out, head, s, x);
    write_peer(out, local, x)
}
