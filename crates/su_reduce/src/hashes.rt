//! Hashes of rows at some places, and chains of the rows with one hash.
ghost use Rattle.std.specs.Prelude.{◌≡◌, ◌↔◌, ℕ, ◌%◌, ◌<◌, length, get_or, IsTrue};
ghost use Rattle.su_reduce.specs.Chains.{hash_of, AreHeads, AreChains};
ghost use Rattle.su_reduce.specs.Sheets.{pick, AreBelow};

use crate::sheets::Sheet;

/// The hash of the cells at these places.
pub fn hash(row: &[u32], places: &[usize]) -> u64
    requires { AreBelow places.now (length row.now) }
    ensures { result ≡ hash_of (pick places.now row.now) }
{
    let mut hash = 0u64;
    for p in places {
        hash = hash
            .wrapping_mul(0x9E3779B97F4A7C15)
            .wrapping_add(row[*p] as u64);
    }
    hash
}

/// The bucket of a row, of so many.
pub fn bucket(row: &[u32], places: &[usize], buckets: usize) -> usize
    requires below { AreBelow places.now (length row.now) }
    requires some { 0 < buckets }
    ensures { result ≡ hash_of (pick places.now row.now) % buckets }
{
    (hash(row, places) % buckets as u64) as usize
}

/// Per bucket the number after its last row, and per row the number after the row before it in its
/// bucket.
pub fn fill(rows: &Sheet, places: &[usize], heads: &mut [usize], next: &mut [usize])
    requires below { AreBelow places.now rows.now.width }
    requires some { 0 < length heads.old }
    requires blank { (h : ℕ) → h < length heads.old → get_or heads.old h 0 ≡ 0 }
    requires room { length next.old ≡ length rows.now.rows }
    ensures lengths { (length heads.new ≡ length heads.old) × (length next.new ≡ length next.old) }
    ensures heads { AreHeads rows.now.rows places.now heads.new }
    ensures next { AreChains rows.now.rows places.now (length heads.new) next.new }
{
    for j in 0..rows.len() {
        let h = bucket(rows.row(j), places, heads.len());
        next[j] = heads[h];
        heads[h] = j + 1;
    }
}

/// Whether the two rows have one key.
pub fn same_key(left: &[u32], left_key: &[usize], right: &[u32], right_key: &[usize]) -> bool
    requires left { AreBelow left_key.now (length left.now) }
    requires right { AreBelow right_key.now (length right.now) }
    requires lengths { length left_key.now ≡ length right_key.now }
    ensures { IsTrue result ↔ (pick left_key.now left.now ≡ pick right_key.now right.now) }
{
    for i in 0..left_key.len() {
        if left[left_key[i]] != right[right_key[i]] {
            return false;
        }
    }
    true
}
