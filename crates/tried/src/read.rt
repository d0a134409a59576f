// The input, and the numbers that stand in a line of it.
ghost use Rattle.std.specs.Prelude.{◌≤◌, length};

use std::io::Read;

// What is read until there is no more room, the input ends or a read fails.
pub(crate) fn full<'a>(stdin: &mut impl Read, room: &'a mut [u8]) -> &'a [u8]
    ensures { length result.now ≤ length room.old }
{
    let mut count = 0;
    while count < room.len() {
        match stdin.read(&mut room[count..]) {
            Ok(0) | Err(_) => break,
            Ok(came) => count += came,
        }
    }
    &room[..count]
}

// A number with one digit more, or as it is where no room is left for one.
fn grown(number: u32, byte: u8) -> u32 {
    if byte.is_ascii_digit() && number <= 429496728 {
        number * 10 + u32::from(byte - b'0')
    } else {
        number
    }
}

// The numbers of a line, as many as there is room for. A number at its very end is not over yet, and is none.
pub(crate) fn numbers<'a>(line: &[u8], room: &'a mut [u32]) -> &'a [u32]
    ensures { length result.now ≤ length room.old }
{
    let end = line.iter().rposition(|byte| !byte.is_ascii_digit());
    let ended = &line[..end.unwrap_or(0)];
    let mut count = 0;
    for digits in ended.split(|byte| !byte.is_ascii_digit()) {
        if count == room.len() {
            break;
        }
        if !digits.is_empty() {
            room[count] = digits.iter().fold(0, |number, byte| grown(number, *byte));
            count += 1;
        }
    }
    &room[..count]
}
