// An item's number in the item table, its code (specs/Code.antt).
ghost use Rattle.std.specs.Prelude.{◌≡◌, ◌<◌, ◌≤◌};
ghost use Rattle.plan.specs.Code.{code_from, code_rank, code_kind, code_subject};

// The kinds of items. They are numbers, for they stand in the codes of the lent tables, which a host
// may damage to a fourth, and places are computed from them (`slot_of`).
pub const TASK: u64 = 0;

pub const SEND: u64 = 1;

pub const RECEIVE: u64 = 2;

// The code of an item.
pub fn item_code(fewer: u64, rank: u64, kind: u64, subject: u64) -> u64
    requires { (fewer ≤ 1) × (rank < 16) × (kind ≤ 2) × (subject < 128) }
    ensures { (result ≡ code_from fewer rank kind subject) × (result < 16384) }
{
    8192 * fewer + (512 * rank + (128 * kind + subject))
}

// The rank that an item works on.
pub fn item_rank(code: u64) -> u64
    ensures { result ≡ code_rank code }
{
    code / 512 % 16
}

// Its kind.
pub fn item_kind(code: u64) -> u64
    ensures { result ≡ code_kind code }
{
    code / 128 % 4
}

// The task of a task, the region of a send or receive.
pub fn item_subject(code: u64) -> usize
    ensures { (result ≡ code_subject code) × (result < 128) }
{
    (code % 128) as usize
}
