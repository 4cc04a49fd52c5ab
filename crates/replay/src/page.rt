// A page's lines and words, each a part of the page.
ghost use Rattle.std.specs.Prelude.{◌<◌, ◌≤◌, length};

// How many bytes stand before the first mark, all of them where there is none.
fn until(bytes: &[u8], mark: u8) -> usize
    ensures { result ≤ length bytes.now }
{
    bytes
        .iter()
        .position(|byte| *byte == mark)
        .unwrap_or(bytes.len())
}

// What stands before the first mark.
pub fn first(bytes: &[u8], mark: u8) -> &[u8] {
    &bytes[..until(bytes, mark)]
}

// What stands after the first mark.
pub fn past(bytes: &[u8], mark: u8) -> &[u8]
    ensures within { length result.now ≤ length bytes.now }
    ensures moves { 0 < length bytes.now → length result.now < length bytes.now }
{
    let end = until(bytes, mark);
    if end < bytes.len() {
        &bytes[end + 1..]
    } else {
        &bytes[end..]
    }
}

// The page from its first line of that name on, nothing where there is none.
pub fn from<'p, 'n>(page: &'p [u8], name: &'n [u8]) -> &'p [u8]
    ensures { length result.now ≤ length page.now }
{
    let mut rest = page;
    while !rest.is_empty() {
        if first(rest, b' ') == name {
            return rest;
        }
        rest = past(rest, b'\n');
    }
    rest
}

// How many marks there are.
pub fn marks(bytes: &[u8], mark: u8) -> usize {
    bytes.iter().filter(|byte| **byte == mark).count()
}

// How many bytes stand before the next line of that name, the first line aside.
pub fn extent(page: &[u8], name: &[u8]) -> usize
    ensures within { result ≤ length page.now }
    ensures moves { 0 < length page.now → 0 < result }
{
    page.len() - from(past(page, b'\n'), name).len()
}
