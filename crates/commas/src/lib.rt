// Where a name of a name-list ends (RFC 4251 section 5): at the next comma, or at the end of the list.
#![tactic(auto)]

ghost use Rattle.std.specs.Prelude.{◌≡◌, ◌+◌, drop};
ghost use Rattle.commas.specs.Cut.{name_length};

// Where the name that starts at `at` ends; past the list's end there is no name, and it ends where it starts.
pub fn name_end(list: &[u8], at: usize) -> usize
    ensures { result ≡ at + name_length (drop at list.now) }
{
    // Kept: the index that both loops count is the answer. Tried and slower for a name of 20 bytes, of 73 instructions:
    // `position` (134), `chunks_exact(8)` (80), memchr (82); and a `for` for the second loop (70 for 67 at the list's end).
    let mut i = at;
    // Eight bytes without a comma are passed over together: one branch for eight.
    if 8 <= list.len() {
        while i <= list.len() - 8 && !list[i..i + 8].contains(&b',') {
            i += 8;
        }
    }
    while i < list.len() && list[i] != b',' {
        i += 1;
    }
    i
}
