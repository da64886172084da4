// Reads the word that names a part of a partition.
ghost use Rattle.std.specs.Prelude.{◌≡◌, ◌<◌, MatchResult, MatchOption, IfSome, ◌==◌, position, length};
ghost use Rattle.run_filter.specs.PartitionWord.{digits_number, kind_of, part_of, partition_of};

use crate::partition::{Partition, PartitionError, PartitionKind};

// A number in decimal digits.
fn number_of(digits: &[u8]) -> Option<u64>
    ensures { result ≡ digits_number digits.now }
{
    if digits.is_empty() {
        return None;
    }
    let mut number = 0u64;
    for byte in digits {
        if !byte.is_ascii_digit() {
            return None;
        }
        number = number
            .checked_mul(10)?
            .checked_add(u64::from(*byte - b'0'))?;
    }
    Some(number)
}

fn kind_of(word: &[u8]) -> Option<(PartitionKind, &[u8])>
    ensures { MatchOption result (kind_of word.now ≡ None) (λ r. kind_of word.now ≡ Some (r.0, r.1.now)) }
{
    if word.starts_with(b"hash:") {
        return Some((PartitionKind::Hash, &word[5..]));
    }
    if word.starts_with(b"count:") {
        return Some((PartitionKind::Count, &word[6..]));
    }
    if word.starts_with(b"slice:") {
        return Some((PartitionKind::Slice, &word[6..]));
    }
    None
}

fn part_of(kind: PartitionKind, part: &[u8], parts: &[u8]) -> Result<Partition, PartitionError>
    ensures { MatchResult result (λ p. part_of kind part.now parts.now ≡ Ok (p.kind, p.part, p.parts))
        (λ e. part_of kind part.now parts.now ≡ Err e) }
{
    let Some(part) = number_of(part) else {
        return Err(PartitionError::Part);
    };
    let Some(parts) = number_of(parts) else {
        return Err(PartitionError::Parts);
    };
    if part == 0 || parts < part {
        return Err(PartitionError::Range);
    }
    Ok(Partition { kind, part, parts })
}

fn first_slash(numbers: &[u8]) -> Option<usize>
    ensures value { result ≡ position (λ b. b == 47) numbers.now }
    ensures within { IfSome result (λ slash. slash < length numbers.now) }
{
    numbers.iter().position(|byte| *byte == b'/')
}

fn partition_of(word: &[u8]) -> Result<Partition, PartitionError>
    ensures { MatchResult result (λ p. partition_of word.now ≡ Ok (p.kind, p.part, p.parts))
        (λ e. partition_of word.now ≡ Err e) }
{
    let Some((kind, numbers)) = kind_of(word) else {
        return Err(PartitionError::Kind);
    };
    let Some(slash) = first_slash(numbers) else {
        return Err(PartitionError::Slash);
    };
    part_of(kind, &numbers[..slash], &numbers[slash + 1..])
}

/// Reads a part of a partition: `hash:M/N`, `count:M/N` or `slice:M/N`.
pub fn read_partition(word: &str) -> Result<Partition, PartitionError>
    ensures { MatchResult result (λ p. partition_of word.now ≡ Ok (p.kind, p.part, p.parts))
        (λ e. partition_of word.now ≡ Err e) }
{
    partition_of(word.as_bytes())
}
