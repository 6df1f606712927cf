// Bytes and decimal numbers put into a lent slice. Each function puts its bytes from an offset on
// and answers the offset behind them.
#![tactic(auto)]

ghost use Rattle.std.specs.Prelude.{◌+◌, ◌/◌, ◌%◌, ◌≤◌, ◌<◌, ◌≡◌, [], ◌∷◌, ◌++◌, length};
ghost use Rattle.std.proofs.lemmas.List.Edits.{sets};
ghost use Rattle.finite.specs.Put.{Added, RoomAt};
ghost use Rattle.text.specs.Digits.{digits};
ghost use Rattle.text.specs.declared.Number.TheVariants.{Value};

// How many decimal digits a number below 10,000 has.
fn few_digits(n: u64) -> usize
    requires { n < 10000 }
    ensures { result ≡ length (digits (Value n)) }
{
    if n < 10 {
        return 1;
    }
    if n < 100 {
        return 2;
    }
    if n < 1000 {
        return 3;
    }
    4
}

// How many decimal digits a number has.
pub fn digit_count(n: u64) -> usize
    ensures { (result ≡ length (digits (Value n))) × (result ≤ 20) }
{
    let mut rest = n;
    let mut behind: usize = 0;
    while 10000 <= rest {
        rest /= 10000;
        behind += 4;
    }
    behind + few_digits(rest)
}

// The two digits of a number below 100.
fn put_two(out: &mut [u8], at: usize, n: u64)
    requires { (n < 100) × (at + 1 < length out.old) }
    ensures { out.new ≡ sets out.old at ((48 + n / 10) ∷ (48 + n % 10) ∷ []) }
{
    out[at] = 48 + (n / 10) as u8;
    out[at + 1] = 48 + (n % 10) as u8;
}

// A number in decimal, two digits at a time, its last ones first.
fn put_number(out: &mut [u8], at: usize, n: u64) -> usize
    requires { RoomAt (digits (Value n)) at out.old }
    ensures { Added (digits (Value n)) at out.old result out.new }
{
    let end = at + digit_count(n);
    let mut i = end;
    let mut rest = n;
    while 100 <= rest {
        i -= 2;
        put_two(out, i, rest % 100);
        rest /= 100;
    }
    if rest < 10 {
        out[at] = 48 + rest as u8;
        return end;
    }
    put_two(out, at, rest);
    end
}

// Some bytes.
pub fn put_bytes(out: &mut [u8], at: usize, bytes: &[u8]) -> usize
    requires { RoomAt bytes.now at out.old }
    ensures { Added bytes.now at out.old result out.new }
{
    // by a loop: with `copy_from_slice` the archive for C needs `memmove`
    for i in 0..bytes.len() {
        out[at + i] = bytes[i];
    }
    at + bytes.len()
}

// A field: the byte that parts it from what stands before it, and a number.
pub fn put_field(out: &mut [u8], at: usize, part: u8, n: u64) -> usize
    requires { RoomAt (part ∷ digits (Value n)) at out.old }
    ensures { Added (part ∷ digits (Value n)) at out.old result out.new }
{
    out[at] = part;
    put_number(out, at + 1, n)
}

// The last field of a line, and the end of the line.
pub fn put_last(out: &mut [u8], at: usize, part: u8, n: u64) -> usize
    requires { RoomAt ((part ∷ digits (Value n)) ++ (10 ∷ [])) at out.old }
    ensures { Added ((part ∷ digits (Value n)) ++ (10 ∷ [])) at out.old result out.new }
{
    let end = put_field(out, at, part, n);
    out[end] = b'\n';
    end + 1
}
