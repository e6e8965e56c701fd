// Every command but `T`, `S` and those of `run_portions` with the row that it prints (docs/CHANRUN.md): which play of `run_plain`, `run_frames`, `run_queries` and
// `run_table` it is. Defined in specs/Playing.antt, case by case; those others
// have no row here. `room` is the table's room, no longer and no shorter; `octets` holds a
// word's octets or a job, `frames` frames.
#![tactic(auto)]

ghost use Rattle.run_play.specs.Plays.{Plays};
ghost use Rattle.run.specs.Playing.{play_of};

use channel::Table;
use octets::least;
use run_play::Played;
use script_commands::Command;

pub fn play(
    t: Table,
    c: Command,
    line: &[u8],
    room: &mut [u8],
    octets: &mut [u8],
    frames: &mut [u8],
    row: &mut [u8],
) -> Played
    ensures { Plays (play_of t room.old line.now octets.old frames.old c) row.old result room.new row.new }
{
    match c {
        Command::Bad => {
            let n = row_call::bad(row);
            Played {
                table: t,
                octets: n,
            }
        }
        Command::Opening(call) => run_plain::opening(t, call, room, row),
        Command::Closing(call) => run_plain::closing(t, call, room, row),
        Command::Make { .. } => Played {
            table: t,
            octets: 0,
        },
        Command::Signal { .. } => Played {
            table: t,
            octets: 0,
        },
        Command::Opened { slot, link, up } => run_plain::opened(t, slot, link, up, room, row),
        Command::Dispatch { link, cid, payload } => {
            run_frames::frame(t, link, cid, line, payload, octets, room, row)
        }
        Command::Send { slot, job } => {
            run_frames::send(t, slot, line, job, octets, room, frames, row)
        }
        Command::Receive { slot, size } => {
            let n = least(size as usize, octets.len());
            run_frames::take(t, slot, room, &mut octets[..n], row)
        }
        Command::Queries(slot) => {
            let n = run_queries::queried(t, slot, row);
            Played {
                table: t,
                octets: n,
            }
        }
        Command::Tallies(slot) => {
            let n = run_queries::tallied(t, slot, row);
            Played {
                table: t,
                octets: n,
            }
        }
        Command::View => {
            let n = row_view::write_view(row, 0, t);
            Played {
                table: t,
                octets: n,
            }
        }
        Command::Room(slot) => {
            let n = run_table::shown(t, slot, room, row);
            Played {
                table: t,
                octets: n,
            }
        }
        Command::Portions(_) => Played {
            table: t,
            octets: 0,
        },
    }
}
