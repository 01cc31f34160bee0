// Looking through targets, and placing them in a row.
ghost use Rattle.std.specs.Prelude.{◌≡◌, ◌<◌, ◌≤◌, length};
ghost use Rattle.std.specs.List.{remove};
ghost use Rattle.rows.specs.Waiting.{among};
ghost use Rattle.rows.specs.Law.{counts_fit, rising, row_fits};
ghost use Rattle.rows.specs.declared.plain.TheConstants.{TARGETS_MAX};
ghost use Rattle.rows.specs.Storage.{all_zero, places_fit};
ghost use Rattle.rows.specs.Changes.{first_wrong};
ghost use Rattle.rows.specs.Places.{IsPlaceOf};
ghost use Rattle.rows.specs.StoredRows.{places_of};

use crate::plain::TARGETS_MAX;
use std::simd::cmp::SimdPartialEq;
use std::simd::u8x16;

/// Whether a row may have this need and so many targets.
pub fn counts_fit(need: u8, count: usize) -> bool
    ensures { result ≡ counts_fit need count }
{
    count <= TARGETS_MAX && need as usize <= count && (need > 0 || count == 0)
}

/// Whether each target is above the one before it.
pub fn rises(targets: &[u8]) -> bool
    ensures { result ≡ rising 0 targets.now }
{
    targets.is_sorted_by(|before, after| before < after)
}

/// The place of a job among the targets.
pub fn place_of(targets: &[u8], job: usize) -> Option<usize>
    ensures { IsPlaceOf job targets.now result }
{
    targets.iter().position(|target| *target as usize == job)
}

/// Whether a job stands at some of the places, in use or not. All are compared at once, without an early exit.
pub fn stands_somewhere(places: &[u8; TARGETS_MAX], job: u8) -> bool
    ensures { result ≡ among job places.now }
{
    u8x16::from_array(*places)
        .simd_eq(u8x16::splat(job))
        .to_bitmask()
        != 0
}

/// The place of the first target that is not below `jobs`, is the job itself, or is not above the one before it.
pub fn first_wrong(jobs: usize, job: usize, targets: &[u8]) -> Option<usize>
    ensures { result ≡ first_wrong jobs job 0 0 targets.now }
{
    // a `for`, since each test needs the target before: a chain would hide that in a captured variable
    let mut low: usize = 0;
    for (place, target) in targets.iter().enumerate() {
        let target = *target as usize;
        if target >= jobs || target == job || target < low {
            return Some(place);
        }
        low = target + 1;
    }
    None
}

/// Whether a need and targets are a row of `job`, one of `jobs` jobs, that obeys the row law.
pub fn row_fits(jobs: usize, job: usize, need: u8, targets: &[u8]) -> bool
    ensures { result ≡ row_fits jobs job (record { need = need; targets = targets.now }) }
{
    counts_fit(need, targets.len()) && first_wrong(jobs, job, targets).is_none()
}

// Whether every place is 0.
fn all_zero(places: &[u8]) -> bool
    ensures { result ≡ all_zero places.now }
{
    places.iter().all(|place| *place == 0)
}

/// Whether these can be the places of a stored row with `count` targets: there are 16, no more are in use, and the unused ones are 0.
pub fn places_fit(count: usize, places: &[u8]) -> bool
    ensures { result ≡ places_fit count places.now }
{
    places.len() == TARGETS_MAX && count <= TARGETS_MAX && all_zero(&places[count..])
}

/// The targets at the first places, and 0 at the others.
pub fn padded(targets: &[u8]) -> [u8; TARGETS_MAX]
    requires { length targets.now ≤ TARGETS_MAX }
    ensures { result ≡ places_of targets.now }
{
    let mut places = [0; TARGETS_MAX];
    places[..targets.len()].copy_from_slice(targets);
    places
}

/// The targets but the one at a place, at the first places, and 0 at the others.
pub fn without_place(targets: &[u8], place: usize) -> [u8; TARGETS_MAX]
    requires { (length targets.now ≤ TARGETS_MAX) × (place < length targets.now) }
    ensures { result ≡ places_of (remove targets.now place) }
{
    let mut left = [0; TARGETS_MAX];
    left[..place].copy_from_slice(&targets[..place]);
    left[place..targets.len() - 1].copy_from_slice(&targets[place + 1..]);
    left
}
