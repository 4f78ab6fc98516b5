// A flow in a lent scratch (requests S-3 and S-13): 96 amounts, one per pair for its flow, one per zone for export
// used, one per zone for import used. They are tenths, and bare numbers here, since a lent list holds no measure.
#![tactic(auto)]

ghost use Rattle.std.specs.Prelude.{◌≡◌, ◌+◌, ◌-◌, ◌≤◌, ◌<◌, length, get_or, set, pos};
ghost use Rattle.std.specs.Int.Signed.{le_z};
ghost use Rattle.base_integers.specs.Meaning.Difference.{up, dn};
ghost use Rattle.flow_scratch.specs.Meaning.Places.{amount_at};
ghost use Rattle.flow_scratch.specs.Meaning.Cleared.{Cleared};

// The number of amounts, and where those of the zones begin.
pub const AMOUNTS: usize = 96;

pub const EXPORT_USED: usize = 64;

pub const IMPORT_USED: usize = 80;

// The amount at a place: the number there, or 0 where that is negative.
pub fn amount(s: &[i64], k: usize) -> u64
    requires { k < length s.now }
    ensures { result ≡ amount_at s.now k }
{
    s[k].max(0).cast_unsigned()
}

// The import of a zone: its net export without the sign, where that is negative.
pub fn import_of(net_exports: &[i64], z: usize) -> u64
    requires { z < length net_exports.now }
    ensures { result ≡ dn (get_or net_exports.now z (pos 0)) }
{
    net_exports[z].min(0).unsigned_abs()
}

pub fn store(s: &mut [i64], k: usize, v: u64)
    requires k_in_bounds { k < length s.old }
    requires v_bound { v < 9223372036854775808 }
    ensures { s.new ≡ set s.old k (pos v) }
{
    s[k] = v.cast_signed();
}

// Whether a pair counts: its first price is at most its second.
pub fn counts(prices: &[i64], a: usize, b: usize) -> bool
    requires a_in_bounds { a < length prices.now }
    requires b_in_bounds { b < length prices.now }
    ensures { result ≡ le_z (get_or prices.now a (pos 0)) (get_or prices.now b (pos 0)) }
{
    prices[a] <= prices[b]
}

// What is left of `all`, where the amount at a place is used.
fn left(all: u64, s: &[i64], k: usize) -> u64
    requires { k < length s.now }
    ensures { result ≡ all - amount_at s.now k }
{
    all.saturating_sub(amount(s, k))
}

// The export that a zone has left.
pub fn export_left(net_exports: &[i64], s: &[i64], z: usize) -> u64
    requires z_in_bounds { z < length net_exports.now }
    requires net_exports_len_bound { length net_exports.now ≤ 16 }
    requires in_bounds { 96 ≤ length s.now }
    ensures { result ≡ up (get_or net_exports.now z (pos 0)) - amount_at s.now (64 + z) }
{
    left(amount(net_exports, z), s, EXPORT_USED + z)
}

// The import that a zone has left. Not one function with `export_left`: two definitions say what a zone has, `up` for
// an export and `dn` for an import.
pub fn import_left(net_exports: &[i64], s: &[i64], z: usize) -> u64
    requires z_in_bounds { z < length net_exports.now }
    requires net_exports_len_bound { length net_exports.now ≤ 16 }
    requires in_bounds { 96 ≤ length s.now }
    ensures { result ≡ dn (get_or net_exports.now z (pos 0)) - amount_at s.now (80 + z) }
{
    left(import_of(net_exports, z), s, IMPORT_USED + z)
}

// Sets the first n numbers to zero.
pub fn clear(s: &mut [i64], n: usize)
    requires { n ≤ length s.old }
    ensures { Cleared n s.old s.new }
{
    s[..n].fill(0);
}
