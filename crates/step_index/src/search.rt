//! Looking up a number in a sorted list by halves.
ghost use Rattle.std.specs.Prelude.{◌≡◌, ◌≤◌, ◌<◌, ◌-◌, ◌*◌, ◌+◌, ◌^◌, true, false, nat_le, nat_lt, length, take, drop};
ghost use Rattle.std.specs.List.{list_any};
ghost use Rattle.step_index.specs.Ascending.{IsAscending};

use crate::keyed::Keyed;
use crate::ticks::Steps;
use std::marker::Brand;
use std::sync::ledger::{Blank, Ledger};

/// How many of the items have at most the number. Each comparison of an item with it is a tick.
pub fn count_upto<T: Keyed, L: Ledger>(items: &[T], number: u32, steps: &mut Steps<L>) -> usize
    requires sorted { IsAscending T.key items.now }
    ensures within { result ≤ length items.now }
    ensures upto { list_any (λ item. nat_lt number (T.key item)) (take result items.now) ≡ false }
    ensures past { list_any (λ item. nat_le (T.key item) number) (drop result items.now) ≡ false }
    ensures counted { steps.old ≤ steps.new }
    ensures cost { 2 ^ (steps.new - steps.old) ≤ 2 * length items.now + 1 }
{
    let mut low = 0;
    let mut high = items.len();
    while low < high {
        let middle = low + (high - low) / 2;
        steps.tick();
        if items[middle].key() <= number {
            low = middle + 1;
        } else {
            high = middle;
        }
    }
    low
}

/// The same for a caller that counts nothing; where all have at most the number, one comparison tells, and where they are evenly spaced, two or four.
pub fn uncounted_upto<T: Keyed>(items: &[T], number: u32) -> usize
    requires sorted { IsAscending T.key items.now }
    ensures within { result ≤ length items.now }
    ensures upto { list_any (λ item. nat_lt number (T.key item)) (take result items.now) ≡ false }
    ensures past { list_any (λ item. nat_le (T.key item) number) (drop result items.now) ≡ false }
{
    if are_upto(items, number) {
        return items.len();
    }
    let at = spread(items, number);
    if stands_at(items, at, number) {
        return at + 1;
    }
    if at > 0 && stands_at(items, at - 1, number) {
        return at;
    }
    blank_upto::<T, Brand>(items, number, Blank::new(1))
}

// The place that the number would have, were the items evenly spaced from 0 to the last; or the first place.
fn spread<T: Keyed>(items: &[T], number: u32) -> usize
    ensures { result < 18446744073709551615 }
{
    match items.last() {
        Some(last) => {
            let last = last.key();
            if last == 0 || items.len() > 4_294_967_295 {
                return 0;
            }
            let place = u64::from(number) * (items.len() as u64) / u64::from(last);
            place as usize
        }
        None => 0,
    }
}

// Whether the number lies between the item at the place and the next one.
fn stands_at<T: Keyed>(items: &[T], at: usize, number: u32) -> bool
    requires sorted { IsAscending T.key items.now }
    requires room { at < 18446744073709551615 }
    ensures within { result ≡ true → at < length items.now }
    ensures upto { result ≡ true → list_any (λ item. nat_lt number (T.key item)) (take (at + 1) items.now) ≡ false }
    ensures past { result ≡ true → list_any (λ item. nat_le (T.key item) number) (drop (at + 1) items.now) ≡ false }
{
    match items.get(at) {
        Some(here) => match items.get(at + 1) {
            Some(next) => here.key() <= number && number < next.key(),
            None => false,
        },
        None => false,
    }
}

// Whether all items have at most the number: the last has.
fn are_upto<T: Keyed>(items: &[T], number: u32) -> bool
    requires sorted { IsAscending T.key items.now }
    ensures { result ≡ true → list_any (λ item. nat_lt number (T.key item)) items.now ≡ false }
{
    match items.last() {
        Some(last) => last.key() <= number,
        None => true,
    }
}

// The same with a ledger of its own.
fn blank_upto<T: Keyed, L: Ledger>(items: &[T], number: u32, blank: Blank) -> usize
    requires sorted { IsAscending T.key items.now }
    requires name { blank.name ≡ L.name }
    requires parts { blank.parts ≡ L.parts }
    requires one { L.parts ≡ 1 }
    ensures within { result ≤ length items.now }
    ensures upto { list_any (λ item. nat_lt number (T.key item)) (take result items.now) ≡ false }
    ensures past { list_any (λ item. nat_le (T.key item) number) (drop result items.now) ≡ false }
{
    let mut steps = Steps::<L>::new(blank);
    count_upto(items, number, &mut steps)
}
