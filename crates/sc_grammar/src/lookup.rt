//! The productions by their numbers.
ghost use Rattle.std.specs.Prelude.{◌≡◌, ◌≤◌, ◌<◌, ◌+◌, ◌-◌, length, slice_get, slice_range, Some};
ghost use Rattle.lr_tables.specs.Grammar.{entries_of};
ghost use Rattle.sc_grammar.specs.C11.{productions};
ghost use Rattle.sc_grammar.specs.Production.{production_of, IsLeftAt, places_from};

use crate::c11::C11;
use crate::{PRODUCTIONS, Production};
use lr_tables::Entry;

/// Where each production begins among the entries of the grammar, and where the last one ends.
static PLACES: [usize; PRODUCTIONS + 1] = [
    0, 3, 5, 7, 10, 12, 14, 17, 21, 24, 26, 29, 32, 36, 38, 41, 43, 45, 48, 52, 55, 59, 61, 63, 67,
    69, 73, 75, 79, 81, 83, 85, 87, 89, 91, 93, 97, 102, 106, 109, 113, 115, 117, 120, 126, 134,
    140, 142, 144, 150, 158, 165, 173, 180, 188, 190, 192, 194, 198, 201, 204, 207, 211, 213, 217,
    219, 223, 226, 229, 231, 233, 237, 239, 242, 245, 248, 251, 254, 257, 260, 262, 265, 267, 270,
    273, 275, 277, 279, 281, 283, 285, 287, 289, 291, 293, 295, 297, 300, 302, 305, 308, 311, 313,
    316, 318, 320, 325, 330, 332, 335, 337, 339, 341, 343, 345, 347, 349, 351, 353, 355, 357, 359,
    361, 363, 365, 367, 369, 371, 376, 378, 380, 385, 391, 394, 396, 398, 400, 403, 406, 410, 412,
    414, 418, 420, 423, 427, 435, 440, 446, 452, 459, 462, 464, 468, 470, 474, 476, 478, 481, 483,
    487, 490, 493, 498, 500, 502, 505, 509, 511, 513, 516, 519, 521, 524, 527, 531, 534, 538, 542,
    547, 552, 558, 564, 568, 573, 576, 580, 582, 584, 587, 591, 596, 598, 602, 607, 610, 612, 615,
    619, 622, 624, 628, 630, 632, 636, 638, 642, 644, 646, 648, 650, 652, 654, 656, 658, 660, 662,
    664, 666, 672, 674, 678, 680, 684, 686, 690, 692, 696, 698, 702, 704, 708, 712, 714, 718, 722,
    726, 730, 732, 736, 740, 742, 746, 750, 752, 756, 760, 764, 766, 771, 773, 776, 779, 782, 785,
    790, 795, 797, 799, 801, 803, 805, 807, 809, 814, 818, 823, 827, 831, 834, 837, 844, 852, 854,
    856, 858, 862, 864, 871, 873, 877, 881, 885, 887, 890, 892, 894, 897, 900,
];

/// The production of this number, from 1.
pub fn production(number: usize) -> Production
    requires first { 1 ≤ number }
    requires last { number ≤ PRODUCTIONS }
    ensures { slice_get productions (number - 1) ≡ Some (production_of result) }
{
    read(entries(), place(number - 1), place(number))
}

/// The entries of the grammar.
fn entries() -> &'static [Entry]
    ensures { result.now ≡ entries_of productions }
{
    C11.entries
}

/// Where the production after so many begins.
fn place(count: usize) -> usize
    requires { count ≤ PRODUCTIONS }
    ensures { slice_get (places_from 0 productions) count ≡ Some result }
{
    PLACES[count]
}

/// The production that begins at one place and ends before the other.
fn read(entries: &'static [Entry], begin: usize, end: usize) -> Production
    requires begin { begin < end }
    requires end { end ≤ length entries.now }
    requires left { IsLeftAt entries.now begin }
    ensures left { slice_get entries.now begin ≡ Some (Entry.Left result.left result.mark) }
    ensures right { result.right.now ≡ slice_range entries.now (begin + 1) end }
{
    let right = &entries[begin + 1..end];
    match entries[begin] {
        Entry::Left(left, mark) => Production { left, right, mark },
        Entry::Right(_) => unreachable!(),
    }
}
