//! Directories and filters of small lists, whose buckets and bits were worked out by hand, and of longer ones, for which
//! a Python program counted from the definition what passes.
use crate::{HashDirectory, HashFilter, Near};
use std::alloc::Global;
use std::test::Fail;

// The directory of these eight hashes has four buckets of 2^30 hashes. Their filter has two words of 2^31 hashes: in the
// first one the bits 0, 1, 5 and 63 are set, in the second one the bits 0 and 63.
const EIGHT: [u32; 8] = [
    0,
    5,
    0x4000_0000,
    0x4000_0001,
    0x7fff_ffff,
    0x8000_0000,
    0xffff_ffff,
    0xffff_ffff,
];

// Hashes that are not among the eight, but whose three bits are set, with the range of the directory's bucket. The first
// has the bits 1, 0 and 0, the second the word and the bits of 5, and the last two the bits 63, 0, 0 and 0, 63, 0.
const NEIGHBOURS: [(u32, usize, usize); 7] = [
    (0x0000_0001, 0, 2),
    (0x0004_0005, 0, 2),
    (0x0003_ffff, 0, 2),
    (0x4000_0005, 2, 5),
    (0x4000_1041, 2, 5),
    (0x8000_003f, 5, 6),
    (0xc000_0fc0, 6, 8),
];

// Hashes of whose three bits one is not set: by turns that of the last six bits of the hash, of the six before them, and
// of the six before those.
const DENIED: [u32; 9] = [
    0x0000_0002,
    0x0000_0080,
    0x0000_2000,
    0x4000_0006,
    0x4000_0181,
    0x4000_3001,
    0xffff_fffe,
    0xffff_ffbf,
    0xffff_efff,
];

// Hashes that the filter would let pass if their word were the other one.
const OF_THE_OTHER_WORD: [u32; 2] = [0x8000_0001, 0x8000_0005];

// Returns the directory of a list of the tests.
fn directory_of(alloc: Global, hashes: &[u32]) -> Result<HashDirectory, Fail> {
    if hashes.len() > 1024 || !hashes.is_sorted() {
        return Err(Fail::from("a list that is long or does not rise"));
    }
    Ok(HashDirectory::of(alloc, hashes)?)
}

// Returns the filter of a list of the tests.
fn filter_of(alloc: Global, hashes: &[u32]) -> Result<HashFilter, Fail> {
    if hashes.len() > 1024 {
        return Err(Fail::from("a list that is long"));
    }
    Ok(HashFilter::of(alloc, hashes)?)
}

// Returns the hashes 0, 4,051,337, 2 * 4,051,337, and so on. They are spread evenly, and their bits vary.
fn spread_out(alloc: Global) -> Result<Vec<u32>, Fail> {
    let mut hashes = Vec::new(alloc);
    for i in 0..1024u32 {
        hashes.push(i * 4_051_337)?;
    }
    Ok(hashes)
}

// Returns whether the hash is within this range, and nowhere else.
fn is_only_there(hashes: &[u32], near: Near, hash: u32) -> bool {
    let Some(there) = hashes.get(near.from..near.to) else {
        return false;
    };
    let found = there.iter().filter(|one| **one == hash).count();
    found > 0 && found == hashes.iter().filter(|one| **one == hash).count()
}

#[test]
fn each_hash_is_found(rt: HostRuntime) -> Result<(), Fail> {
    let lists: [&[u32]; 9] = [
        &[],
        &[0],
        &[u32::MAX],
        &[0, u32::MAX],
        &[0x7fff_ffff, 0x8000_0000],
        &[9, 9, 9, 9, 9, 9, 9, 9, 9, 9, 9, 9],
        &[u32::MAX, u32::MAX, u32::MAX],
        &[
            1,
            2,
            2,
            2,
            0x6000_0000,
            0x6000_0000,
            0x6000_0001,
            0xf000_0000,
        ],
        &EIGHT,
    ];
    for hashes in lists {
        let directory = directory_of(rt.alloc(), hashes)?;
        for hash in hashes {
            assert!(rt; is_only_there(hashes, directory.near(*hash), *hash));
            assert_eq!(rt; directory.bucket(*hash), directory.near(*hash));
        }
    }
    Ok(())
}

// A hash that may be there is near the hashes of its bucket, whether it is one of them or not.
#[test]
fn places_of_a_bucket(rt: HostRuntime) -> Result<(), Fail> {
    let directory = directory_of(rt.alloc(), &EIGHT)?;
    for (hash, from, to) in [
        (0, 0, 2),
        (5, 0, 2),
        (0x4000_0000, 2, 5),
        (0x4000_0001, 2, 5),
        (0x7fff_ffff, 2, 5),
        (0x8000_0000, 5, 6),
        (0xffff_ffff, 6, 8),
    ] {
        assert_eq!(rt; directory.near(hash), Near { from, to });
    }
    for (hash, from, to) in NEIGHBOURS {
        assert_eq!(rt; directory.near(hash), Near { from, to });
    }
    for hash in DENIED {
        assert_eq!(rt; directory.near(hash), Near { from: 0, to: 0 });
    }
    Ok(())
}

#[test]
fn filter_of_eight(rt: HostRuntime) -> Result<(), Fail> {
    let filter = HashFilter::of(rt.alloc(), &EIGHT)?;
    for hash in EIGHT {
        assert!(rt; filter.may_have(hash));
    }
    for (hash, _, _) in NEIGHBOURS {
        assert!(rt; filter.may_have(hash));
    }
    for hash in DENIED {
        assert!(rt; !filter.may_have(hash));
    }
    for hash in OF_THE_OTHER_WORD {
        assert!(rt; !filter.may_have(hash));
        assert!(rt; filter.may_have(hash ^ 0x8000_0000));
    }
    Ok(())
}

// If there are no hashes, none may be there.
#[test]
fn nothing_is_near(rt: HostRuntime) -> Result<(), Fail> {
    let filter = HashFilter::of(rt.alloc(), &[])?;
    let directory = directory_of(rt.alloc(), &[])?;
    for hash in [0, 1, 0x8000_0000, u32::MAX] {
        assert!(rt; !filter.may_have(hash));
        assert_eq!(rt; directory.near(hash), Near { from: 0, to: 0 });
    }
    Ok(())
}

// The filter of 1,024 hashes has 256 words, and their directory 512 buckets of 2^23 hashes, so that two or three of these
// hashes are near each hash that passes. Of the 16,384 hashes that are looked up, only 0 is in the list. This Python
// program counts those that pass:
//
//     words = [0] * 256
//     bits = lambda h: {h % 64, h // 64 % 64, h // 4096 % 64}
//     for h in range(0, 1024 * 4051337, 4051337):
//         for bit in bits(h):
//             words[h // 2**24] |= 2**bit
//     hashes = range(0, 2**14 * 262111, 262111)
//     print(sum(all(words[h // 2**24] & 2**bit for bit in bits(h)) for h in hashes))
#[test]
fn most_are_denied(rt: HostRuntime) -> Result<(), Fail> {
    let hashes = spread_out(rt.alloc())?;
    let directory = directory_of(rt.alloc(), &hashes)?;
    let filter = filter_of(rt.alloc(), &hashes)?;
    for hash in &hashes {
        assert!(rt; filter.may_have(*hash));
    }
    let mut passed = 0u32;
    for i in 0..1u32 << 14 {
        let near = directory.near(i * 262_111);
        let places = near.to.saturating_sub(near.from);
        if filter.may_have(i * 262_111) {
            assert!(rt; places == 2 || places == 3);
            passed = passed.saturating_add(1);
        } else {
            assert_eq!(rt; places, 0);
        }
    }
    assert_eq!(rt; passed, 95);
    Ok(())
}
