// A line of the sheet for the wall file: thirteen columns and the line's end, byte by byte.
#![tactic(auto)]

ghost use Rattle.std.specs.Prelude.{◌≡◌, ◌<◌};
ghost use Rattle.output.specs.ColumnLaws.{column, last, columns};

// The bytes of a line.
pub const LINE_BYTES: usize = 14;

// The digit of n at the place of p, 10 or 100, or a space where n has none there.
fn digit(p: usize, n: usize) -> u8
    requires { 0 < p }
    ensures { result ≡ column p n }
{
    if n < p {
        b' '
    } else {
        b'0' + (n / p % 10) as u8
    }
}

// The last digit of n, which every number has.
fn ones(n: usize) -> u8
    ensures { result ≡ last n }
{
    b'0' + (n % 10) as u8
}

// The line of a name, its upper name, whether the job uses it, and how many host cells carry it. Names have two columns and the count has three; digits before these are left out, and no job has
// such numbers.
pub fn line(name: usize, upper: usize, used: bool, cells: usize) -> [u8; LINE_BYTES]
    ensures { result ≡ columns (record { name = name; upper = upper; used = used; cells = cells }) }
{
    let [y, e, s] = if used { *b"yes" } else { *b"no " };
    [
        digit(10, name),
        ones(name),
        b' ',
        digit(10, upper),
        ones(upper),
        b' ',
        y,
        e,
        s,
        b' ',
        digit(100, cells),
        digit(10, cells),
        ones(cells),
        b'\n',
    ]
}
