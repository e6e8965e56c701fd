// One line of a script, read as the call that it asks for (docs/CHANRUN.md): `command_of` of specs/Script.antt. It rests on `text_words`, `script_commands` and
// `script_commands::long`.
#![tactic(auto)]

ghost use Rattle.std.specs.Prelude.{◌≡◌};
ghost use Rattle.script.specs.Script.{command_of};

use script_commands::Command;

// Reads a line, its newline left out.
pub fn read_command(line: &[u8]) -> Command
    ensures { result ≡ command_of line.now }
{
    let n = text_words::count(line);
    let p0 = text_words::word_at(line, 0);
    let w0 = text_words::text(line, p0);
    if w0.len() != 1 {
        return Command::Bad;
    }
    let c = octets::octet(w0, 0);
    if n == 1 {
        return script_commands::one_word(c);
    }
    let p1 = text_words::word_after(line, p0);
    let w1 = text_words::text(line, p1);
    if n == 2 {
        return script_commands::two_words(c, w1);
    }
    let p2 = text_words::word_after(line, p1);
    let w2 = text_words::text(line, p2);
    if n == 3 {
        return script_commands::three_words(c, w1, w2, p2);
    }
    let p3 = text_words::word_after(line, p2);
    let w3 = text_words::text(line, p3);
    if n == 4 {
        return script_commands::long::four_words(c, w1, w2, w3, p3);
    }
    let p4 = text_words::word_after(line, p3);
    let w4 = text_words::text(line, p4);
    if n == 5 {
        return script_commands::long::five_words(c, w1, w2, w3, w4, p4);
    }
    let p5 = text_words::word_after(line, p4);
    let w5 = text_words::text(line, p5);
    if n == 6 {
        return script_commands::long::six_words(c, w1, w2, w3, w4, w5);
    }
    let w6 = text_words::text(line, text_words::word_after(line, p5));
    if n == 7 {
        return script_commands::long::seven_words(c, w1, w2, w3, w4, w5, w6);
    }
    Command::Bad
}
