//! Finds the sort key of a rank that a ballot line spells, by two look-ups instead of tests.
//!
//! A test of a rank's length is a coin toss, and a processor that guesses wrong loses the time of
//! several ranks.
ghost use Rattle.std.specs.Prelude.{◌≡◌, if◌then◌else◌, ◌==◌, IfSome, Some, option_map};
ghost use Rattle.std.specs.Str.{byte};
ghost use Rattle.vote_poll.specs.Parsing.{kind_of};
ghost use Rattle.vote_poll.specs.Readings.{rank_in};
ghost use Rattle.vote_poll.specs.SortKeys.{rank_of_key};
ghost use Rattle.vote_poll.specs.Spelling.{rank_bytes};

use crate::UNRANKED;

/// The kind of each byte in a list of ranks: a digit's kind is its value, a comma's 10, a hyphen's
/// 11, and any other byte's 12.
const KINDS: [u8; 256] = [
    12, 12, 12, 12, 12, 12, 12, 12, 12, 12, 12, 12, 12, 12, 12, 12, 12, 12, 12, 12, 12, 12, 12, 12,
    12, 12, 12, 12, 12, 12, 12, 12, 12, 12, 12, 12, 12, 12, 12, 12, 12, 12, 12, 12, 10, 11, 12, 12,
    0, 1, 2, 3, 4, 5, 6, 7, 8, 9, 12, 12, 12, 12, 12, 12, 12, 12, 12, 12, 12, 12, 12, 12, 12, 12,
    12, 12, 12, 12, 12, 12, 12, 12, 12, 12, 12, 12, 12, 12, 12, 12, 12, 12, 12, 12, 12, 12, 12, 12,
    12, 12, 12, 12, 12, 12, 12, 12, 12, 12, 12, 12, 12, 12, 12, 12, 12, 12, 12, 12, 12, 12, 12, 12,
    12, 12, 12, 12, 12, 12, 12, 12, 12, 12, 12, 12, 12, 12, 12, 12, 12, 12, 12, 12, 12, 12, 12, 12,
    12, 12, 12, 12, 12, 12, 12, 12, 12, 12, 12, 12, 12, 12, 12, 12, 12, 12, 12, 12, 12, 12, 12, 12,
    12, 12, 12, 12, 12, 12, 12, 12, 12, 12, 12, 12, 12, 12, 12, 12, 12, 12, 12, 12, 12, 12, 12, 12,
    12, 12, 12, 12, 12, 12, 12, 12, 12, 12, 12, 12, 12, 12, 12, 12, 12, 12, 12, 12, 12, 12, 12, 12,
    12, 12, 12, 12, 12, 12, 12, 12, 12, 12, 12, 12, 12, 12, 12, 12, 12, 12, 12, 12, 12, 12, 12, 12,
    12, 12, 12, 12, 12, 12, 12, 12, 12, 12, 12, 12, 12, 12,
];

/// The sort key of the rank that two bytes spell. Index: 16 * kind of the first byte + kind of the
/// second. If the second byte is a comma, it is not part of the rank. The entry is 0 if the bytes
/// spell no rank.
const KEYS: [u8; 208] = [
    0, 0, 0, 0, 0, 0, 0, 0, 0, 0, 0, 0, 0, 0, 0, 0, 10, 11, 12, 13, 14, 15, 16, 17, 18, 19, 1, 0,
    0, 0, 0, 0, 20, 21, 22, 23, 24, 25, 26, 27, 28, 29, 2, 0, 0, 0, 0, 0, 30, 31, 32, 33, 34, 35,
    36, 37, 38, 39, 3, 0, 0, 0, 0, 0, 40, 41, 42, 43, 44, 45, 46, 47, 48, 49, 4, 0, 0, 0, 0, 0, 50,
    51, 52, 53, 54, 55, 56, 57, 58, 59, 5, 0, 0, 0, 0, 0, 60, 61, 62, 63, 64, 65, 66, 67, 68, 69,
    6, 0, 0, 0, 0, 0, 70, 71, 72, 73, 74, 75, 76, 77, 78, 79, 7, 0, 0, 0, 0, 0, 80, 81, 82, 83, 84,
    85, 86, 87, 88, 89, 8, 0, 0, 0, 0, 0, 90, 91, 92, 93, 94, 95, 96, 97, 98, 99, 9, 0, 0, 0, 0, 0,
    0, 0, 0, 0, 0, 0, 0, 0, 0, 0, 0, 0, 0, 0, 0, 0, 0, 0, 0, 0, 0, 0, 0, 0, 0, 0, UNRANKED, 0, 0,
    0, 0, 0, 0, 0, 0, 0, 0, 0, 0, 0, 0, 0, 0, 0, 0, 0, 0, 0,
];

/// The two bytes that spell the rank with this sort key, as the first + 256 * the second. After a
/// rank of one byte the second is the comma. If no rank has this sort key, the entry is 65536,
/// which no two bytes make.
const PAIRS: [u32; 256] = [
    65536, 11313, 11314, 11315, 11316, 11317, 11318, 11319, 11320, 11321, 12337, 12593, 12849,
    13105, 13361, 13617, 13873, 14129, 14385, 14641, 12338, 12594, 12850, 13106, 13362, 13618,
    13874, 14130, 14386, 14642, 12339, 12595, 12851, 13107, 13363, 13619, 13875, 14131, 14387,
    14643, 12340, 12596, 12852, 13108, 13364, 13620, 13876, 14132, 14388, 14644, 12341, 12597,
    12853, 13109, 13365, 13621, 13877, 14133, 14389, 14645, 12342, 12598, 12854, 13110, 13366,
    13622, 13878, 14134, 14390, 14646, 12343, 12599, 12855, 13111, 13367, 13623, 13879, 14135,
    14391, 14647, 12344, 12600, 12856, 13112, 13368, 13624, 13880, 14136, 14392, 14648, 12345,
    12601, 12857, 13113, 13369, 13625, 13881, 14137, 14393, 14649, 65536, 65536, 65536, 65536,
    65536, 65536, 65536, 65536, 65536, 65536, 65536, 65536, 65536, 65536, 65536, 65536, 65536,
    65536, 65536, 65536, 65536, 65536, 65536, 65536, 65536, 65536, 65536, 65536, 65536, 65536,
    65536, 65536, 65536, 65536, 65536, 65536, 65536, 65536, 65536, 65536, 65536, 65536, 65536,
    65536, 65536, 65536, 65536, 65536, 65536, 65536, 65536, 65536, 65536, 65536, 65536, 65536,
    65536, 65536, 65536, 65536, 65536, 65536, 65536, 65536, 65536, 65536, 65536, 65536, 65536,
    65536, 65536, 65536, 65536, 65536, 65536, 65536, 65536, 65536, 65536, 65536, 65536, 65536,
    65536, 65536, 65536, 65536, 65536, 65536, 65536, 65536, 65536, 65536, 65536, 65536, 65536,
    65536, 65536, 65536, 65536, 65536, 65536, 65536, 65536, 65536, 65536, 65536, 65536, 65536,
    65536, 65536, 65536, 65536, 65536, 65536, 65536, 65536, 65536, 65536, 65536, 65536, 65536,
    65536, 65536, 65536, 65536, 65536, 65536, 65536, 65536, 65536, 65536, 65536, 65536, 65536,
    65536, 65536, 65536, 65536, 65536, 65536, 65536, 65536, 65536, 65536, 65536, 65536, 65536,
    65536, 65536, 65536, 65536, 65536, 65536, 65536, 65536, 11309,
];

/// How many bytes spell the rank with this sort key; 2 if no rank has it.
const LENGTHS: [u8; 256] = [
    2, 1, 1, 1, 1, 1, 1, 1, 1, 1, 2, 2, 2, 2, 2, 2, 2, 2, 2, 2, 2, 2, 2, 2, 2, 2, 2, 2, 2, 2, 2, 2,
    2, 2, 2, 2, 2, 2, 2, 2, 2, 2, 2, 2, 2, 2, 2, 2, 2, 2, 2, 2, 2, 2, 2, 2, 2, 2, 2, 2, 2, 2, 2, 2,
    2, 2, 2, 2, 2, 2, 2, 2, 2, 2, 2, 2, 2, 2, 2, 2, 2, 2, 2, 2, 2, 2, 2, 2, 2, 2, 2, 2, 2, 2, 2, 2,
    2, 2, 2, 2, 2, 2, 2, 2, 2, 2, 2, 2, 2, 2, 2, 2, 2, 2, 2, 2, 2, 2, 2, 2, 2, 2, 2, 2, 2, 2, 2, 2,
    2, 2, 2, 2, 2, 2, 2, 2, 2, 2, 2, 2, 2, 2, 2, 2, 2, 2, 2, 2, 2, 2, 2, 2, 2, 2, 2, 2, 2, 2, 2, 2,
    2, 2, 2, 2, 2, 2, 2, 2, 2, 2, 2, 2, 2, 2, 2, 2, 2, 2, 2, 2, 2, 2, 2, 2, 2, 2, 2, 2, 2, 2, 2, 2,
    2, 2, 2, 2, 2, 2, 2, 2, 2, 2, 2, 2, 2, 2, 2, 2, 2, 2, 2, 2, 2, 2, 2, 2, 2, 2, 2, 2, 2, 2, 2, 2,
    2, 2, 2, 2, 2, 2, 2, 2, 2, 2, 2, 2, 2, 2, 2, 2, 2, 2, 2, 2, 2, 2, 2, 2, 2, 2, 2, 2, 2, 2, 2, 1,
];

/// The kind of a byte in a list of ranks.
fn kind_of(byte: u8) -> u8
    ensures { result ≡ kind_of byte }
{
    KINDS[byte as usize]
}

/// The sort key of the rank that the first byte spells if the second is a comma, and both bytes
/// spell if it is not. `None` if they spell no rank.
pub(crate) fn spelled_key(first: u8, second: u8) -> Option<u8>
    ensures { option_map rank_of_key result ≡ rank_in (rank_bytes first second) }
{
    let key = KEYS[16 * kind_of(first) as usize + kind_of(second) as usize];
    if key == 0 { None } else { Some(key) }
}

/// How many bytes spell the rank with this sort key, if a text that begins with these two bytes may
/// begin with this rank and a comma.
pub(crate) fn spelled_length(first: u8, second: u8, key: u8) -> Option<usize>
    ensures length { IfSome result (λ length. length ≡ (if second == byte "," then 1 else 2)) }
    ensures rank { IfSome result (λ _. rank_in (rank_bytes first second) ≡ Some (rank_of_key key)) }
{
    if u32::from(first) + 256 * u32::from(second) != PAIRS[key as usize] {
        return None;
    }
    Some(LENGTHS[key as usize] as usize)
}
