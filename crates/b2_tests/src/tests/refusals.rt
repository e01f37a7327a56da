//! Arguments that are refused.

use super::{check_rows_of_commands, split_words};
use b2_commands::run;
use blake2::streams::{SliceSink, SliceSource};
use std::alloc::{AllocError, Global};

// The arguments, no input, and the line.
const REFUSALS: &str = "\
||b2: wrong words\n\
sum||b2: wrong words\n\
add b512||b2: wrong words\n\
sum foo||b2: wrong words\n\
sum b0||b2: wrong words\n\
sum b999||b2: wrong words\n\
sum B512||b2: wrong words\n\
sum b512 foo||b2: wrong words\n\
sum b512 key||b2: wrong words\n\
sum b512 Key=01||b2: wrong words\n\
sum b512 =01||b2: wrong words\n\
sum b512 key=01 key=02||b2: wrong words\n\
sum b512 key=01 key=0||b2: wrong words\n\
sum b512 salt=01 salt=02||b2: wrong words\n\
sum b512 salt=01 key=01 salt=01||b2: wrong words\n\
sum b512 persona=01 persona=02||b2: wrong words\n\
sum b512 persona= persona=||b2: wrong words\n\
sum b512 salt=01 persona=01 key=01 persona=||b2: wrong words\n\
sum b512 key= foo||b2: wrong words\n\
sum b512 salt=1||b2: wrong hex\n\
sum b512 salt=1 foo||b2: wrong hex\n\
sum b512 salt=0g||b2: wrong hex\n\
sum b512 persona=01=2||b2: wrong hex\n\
sum b512 key=||b2: wrong length\n\
sum s256 salt=000000000000000000||b2: wrong length\n\
sum s256 persona=000000000000000000||b2: wrong length\n\
sum s256 key=000102030405060708090a0b0c0d0e0f101112131415161718191a1b1c1d1e1f20||b2: wrong length\n\
sum b512 salt=0000000000000000000000000000000000||b2: wrong length\n\
script||b2: wrong words\n\
script b0||b2: wrong words\n\
script b512 foo||b2: wrong words\n\
script b512 key=01 key=02||b2: wrong words\n\
script b512 key=1||b2: wrong hex\n\
script b512 key=||b2: wrong length\n\
script s256 salt=000000000000000000||b2: wrong length\n\
script b128 persona=0000000000000000000000000000000000||b2: wrong length\n\
steps||b2: wrong words\n\
steps b0||b2: wrong words\n\
steps b512 foo||b2: wrong words\n\
steps b512 key=01 key=02||b2: wrong words\n\
steps b512 key=1||b2: wrong hex\n\
steps b512 key=||b2: wrong length\n\
steps s256 salt=000000000000000000||b2: wrong length\n\
steps s128 persona=000000000000000000||b2: wrong length\n\
steps b128 persona=0000000000000000000000000000000000||b2: wrong length\n\
steps s256 key=000102030405060708090a0b0c0d0e0f101112131415161718191a1b1c1d1e1f20||\
b2: wrong length\n\
leaves||b2: wrong words\n\
leaves 4||b2: wrong words\n\
leaves 4 0||b2: wrong words\n\
leaves 0 0 last||b2: wrong words\n\
leaves 4294967296 0 last||b2: wrong words\n\
leaves b512 4 last||b2: wrong words\n\
leaves 4 00 last||b2: wrong words\n\
leaves 4 -1 last||b2: wrong words\n\
leaves 4 1000000000000000000 last||b2: wrong words\n\
leaves 4 0 end||b2: wrong words\n\
leaves 4 0 LAST||b2: wrong words\n\
leaves 4 0 last more||b2: wrong words\n\
leaves 4 0 last key=01||b2: wrong words\n\
leaves 4 0 last salt=1||b2: wrong hex\n\
leaves 4 0 last salt=0000000000000000000000000000000000||b2: wrong length\n\
leaves 4 0 more persona=0000000000000000000000000000000000||b2: wrong length\n\
root||b2: wrong words\n\
root b512||b2: wrong words\n\
root s256 4||b2: wrong words\n\
root b512 0||b2: wrong words\n\
root b512 4 key=01||b2: wrong words\n\
root b512 4 persona=0||b2: wrong hex\n\
root b512 4 salt=0000000000000000000000000000000000||b2: wrong length\n\
xof||b2: wrong words\n\
xof xb||b2: wrong words\n\
xof b512 8||b2: wrong words\n\
xof xb 0||b2: wrong words\n\
xof xb 01||b2: wrong words\n\
xof xb 8x||b2: wrong words\n\
xof xb 4294967295||b2: wrong words\n\
xof xs 65535||b2: wrong words\n\
xof xb 99999999999||b2: wrong words\n\
xof xb 8 foo||b2: wrong words\n\
xof xb 8 Raw||b2: wrong words\n\
xof xb 8 raw raw||b2: wrong words\n\
xof xb 8 key=01 raw||b2: wrong words\n\
xof xb raw 8||b2: wrong words\n\
xof xb 8 raw key=1||b2: wrong hex\n\
xof xb 8 raw key=||b2: wrong length\n\
derive||b2: wrong words\n\
derive 32||b2: wrong words\n\
derive 0 a||b2: wrong words\n\
derive 4294967295 a||b2: wrong words\n\
derive 32 a b||b2: wrong words\n\
derive 32 a raw raw||b2: wrong words\n\
derive 32 a raw b||b2: wrong words\n\
derive raw 32 a||b2: wrong words\n\
sum b512 raw||b2: wrong words\n\
--help sum||b2: wrong words\n\
-h sum||b2: wrong words\n\
help sum||b2: wrong words\n\
-H||b2: wrong words\n\
Help||b2: wrong words\n\
--version sum||b2: wrong words\n\
--hel||b2: wrong words\n\
sum b512 persona=01 persona-text=a||b2: wrong words\n\
sum b512 persona-text=a persona-text=a||b2: wrong words\n\
sum b512 persona-text=||b2: wrong words\n\
sum b512 persona-text= salt=1||b2: wrong words\n\
sum b512 salt=1 persona-text=||b2: wrong hex\n\
sum s256 persona= persona-text=||b2: wrong words\n\
script s128 persona-text=||b2: wrong words\n\
steps b512 key=01 persona-text=||b2: wrong words\n\
tree b256 4 persona-text=||b2: wrong words\n\
leaves 4 0 last persona-text=||b2: wrong words\n\
root b512 4 persona-text=||b2: wrong words\n\
xof xb 8 raw persona-text=||b2: wrong words\n\
tree b512 4 key-text=a||b2: wrong words\n\
xof xb 8 key=1||b2: wrong hex\n\
xof xb 8 key=||b2: wrong length\n\
xof xs 8 salt=000000000000000000||b2: wrong length\n\
sum s256 persona-text=123456789||b2: wrong length\n\
xof xs 8 key=000102030405060708090a0b0c0d0e0f101112131415161718191a1b1c1d1e1f20||b2: wrong length\n\
witness||b2: wrong words\n\
witness b9 61 61||b2: wrong words\n\
witness b512||b2: wrong words\n\
witness b512 61||b2: wrong words\n\
witness b512 61 62 63||b2: wrong words\n\
witness b512 61 62 6||b2: wrong words\n\
witness b512 6||b2: wrong hex\n\
witness b512 6 62 63||b2: wrong hex\n\
witness b512 61 6g||b2: wrong hex\n\
witness b512 -- 61||b2: wrong hex\n\
witness b512 key=01 61||b2: wrong hex\n\
tree||b2: wrong words\n\
tree s256 4||b2: wrong words\n\
tree b0 4||b2: wrong words\n\
tree b512||b2: wrong words\n\
tree b512 0||b2: wrong words\n\
tree b512 04||b2: wrong words\n\
tree b512 00||b2: wrong words\n\
tree b512 +4||b2: wrong words\n\
tree b512 -4||b2: wrong words\n\
tree b512 4a||b2: wrong words\n\
tree b512 0x4||b2: wrong words\n\
tree b512 salt=00||b2: wrong words\n\
tree b512 4294967296||b2: wrong words\n\
tree b512 9999999999||b2: wrong words\n\
tree b512 18446744073709551620||b2: wrong words\n\
tree b512 4 key=01||b2: wrong words\n\
tree b512 4 key=||b2: wrong words\n\
tree b512 4 key=0||b2: wrong words\n\
tree b512 4 4||b2: wrong words\n\
tree b512 4 salt=01 key=01 salt=1||b2: wrong words\n\
tree b512 4 salt=01 salt=02||b2: wrong words\n\
tree b512 4 persona= persona=||b2: wrong words\n\
tree b512 4 salt=1||b2: wrong hex\n\
tree b512 4 salt=1 key=01||b2: wrong hex\n\
tree b512 4 persona=0g foo||b2: wrong hex\n\
tree b512 4 salt=0000000000000000000000000000000000||b2: wrong length\n\
tree b512 4 persona=0000000000000000000000000000000000||b2: wrong length\n\
";

// The source fails at its first read, which shows that no command reads it.
#[test]
fn wrong_arguments_are_refused_unread(rt: HostRuntime) {
    check_rows_of_commands(&rt, REFUSALS, Some(0), 2);
}

// Runs `witness` with an empty argument as the second message, which `split_words` can't make.
// Returns its status, and how many bytes it prints into the room.
fn run_witness_of_empty_argument(
    alloc: Global,
    room: &mut [u8],
) -> Result<(u8, usize), AllocError> {
    let mut words = split_words(alloc, "witness b512 61")?;
    words.push(String::new(alloc))?;
    let mut source = SliceSource::new(b"", 4096, Some(0));
    let mut sink = SliceSink::new(room, 4096, None);
    let status = run(alloc, words.as_slice(), &mut source, &mut sink);
    Ok((status, sink.written()))
}

#[test]
fn empty_message_argument_is_refused(rt: HostRuntime) {
    let mut room = [0u8; 64];
    let found = run_witness_of_empty_argument(rt.alloc(), &mut room);
    assert!(rt; found == Ok((2, 14)));
    assert!(rt; room.get(..14) == Some(b"b2: wrong hex\n".as_slice()));
}
