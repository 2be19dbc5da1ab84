//! What a roster remembers of its items, so that it finds an item by its number, and knows the sums
//! over all items, without a walk.
//!
//! A roster lends an item to be changed, and the borrower may change its number, its size and
//! whether it stirs. Nobody sees that before the borrow is over. So nothing that is remembered
//! speaks of the item that was lent last, and that item is taken back, as it is by then, when
//! another is lent or one is put in.
//!
//! What is remembered may be unknown: then the items are walked over, and the answer is the same. A
//! clause `known` says when a step does not lose it.
ghost use Rattle.std.specs.Prelude.{◌≡◌, ℕ, ◌+◌, ◌^◌, IsSome, ◌<◌, ◌≤◌, true, false, List};
ghost use Rattle.std.specs.Prelude.{Option, Some, None, IfSome, find, map, take, ◌++◌, ◌∷◌, [], length};
ghost use Rattle.std.specs.Prelude.{leb, ltb, ◌||◌, sum_by, not, slice_get, option_copied, remove};
ghost use Rattle.std.specs.List.{list_any, position_from};
ghost use Rattle.profile_image.specs.Words.{without};
ghost use Rattle.rosters.specs.Numbered.{has_number};
ghost use Rattle.rosters.specs.declared.roster_notes.Order.{Order};
ghost use Rattle.rosters.specs.RosterNotes.{AreRight, IsSum, at_place, part_at, one_if};
ghost use Rattle.rosters.specs.RosterNotes.{number_at, is_number_before, comes_before};
ghost use Rattle.rosters.specs.RosterNotes.{IsOrderOf, IsOrdered, InOrder, distance};

use crate::roster::Numbered;
use std::collections::VecDeque;

// Whether this is the number of an item.
fn is_number(number: u32, of: Option<u32>) -> bool
    ensures { result ≡ has_number number of }
{
    of == Some(number)
}

/// How the numbers of a roster go from the front to the back.
#[derive(Clone, Copy)]
pub(crate) enum Order {
    Rising,
    Falling,
}

/// What a roster remembers of its items.
#[derive(Clone, Copy)]
pub(crate) struct Notes {
    /// The place that was lent last, if its item has not been taken back.
    lent: Option<usize>,
    /// The number of the item in front of the lent one.
    front: Option<u32>,
    /// The order of all items but the lent one; none if it is not known, or there is none.
    order: Option<Order>,
    /// The size of all items but the lent one; none if a number cannot hold it.
    size: Option<usize>,
    /// How many items but the lent one stir; none if a number cannot hold it.
    stirring: Option<usize>,
}

// A sum with one part more, if it is known and a number can hold it.
fn more(sum: Option<usize>, part: usize) -> Option<usize>
    ensures right { (n : ℕ) → IsSum sum n → IsSum result (n + part) }
    ensures known { (n : ℕ) → sum ≡ Some n → n + part < 2 ^ 64 → result ≡ Some (n + part) }
{
    sum?.checked_add(part)
}

// A sum with one part less, if it is known.
fn less(sum: Option<usize>, part: usize) -> Option<usize>
    ensures right { (n : ℕ) → IsSum sum (n + part) → IsSum result n }
    ensures known { (n : ℕ) → sum ≡ Some (n + part) → result ≡ Some n }
{
    sum?.checked_sub(part)
}

// The item at a place, if there is one.
fn item_at<T>(items: &VecDeque<T>, place: usize) -> Option<&T>
    ensures { option_copied result ≡ slice_get items.now.items place }
{
    items.get(place)
}

// The item at the lent place, if there is one.
fn lent_item<T>(items: &VecDeque<T>, lent: Option<usize>) -> Option<&T>
    ensures { option_copied result ≡ at_place items.now.items lent }
{
    item_at(items, lent?)
}

// The size of the item at the lent place.
fn lent_size<T: Numbered>(items: &VecDeque<T>, lent: Option<usize>) -> usize
    ensures { result ≡ part_at T.size items.now.items lent }
{
    match lent_item(items, lent) {
        Some(item) => item.size(),
        None => 0,
    }
}

// One if the item at the lent place stirs.
fn lent_stirring<T: Numbered>(items: &VecDeque<T>, lent: Option<usize>) -> usize
    ensures { result ≡ part_at (one_if T.stirs) items.now.items lent }
{
    match lent_item(items, lent) {
        Some(item) => usize::from(item.stirs()),
        None => 0,
    }
}

// The number of the item at a place, if there is one with a number.
fn number_at<T: Numbered>(items: &VecDeque<T>, place: usize) -> Option<u32>
    ensures { result ≡ number_at (map T.number items.now.items) place }
{
    match item_at(items, place) {
        Some(item) => item.number(),
        None => None,
    }
}

// The number of the item in front of a place, if there is one with a number.
fn number_before<T: Numbered>(items: &VecDeque<T>, place: usize) -> Option<u32>
    ensures { (p : ℕ) → place ≡ p + 1 → result ≡ number_at (map T.number items.now.items) p }
{
    if place == 0 {
        return None;
    }
    number_at(items, place - 1)
}

// Whether a number comes before another.
fn is_number_before(order: Order, first: u32, second: u32) -> bool
    ensures { result ≡ is_number_before order first second }
{
    match order {
        Order::Rising => first < second,
        Order::Falling => second < first,
    }
}

// Whether both numbers are there, and the first comes before the second.
fn comes_before(order: Order, first: Option<u32>, second: Option<u32>) -> bool
    ensures { result ≡ comes_before order first second }
{
    match (first, second) {
        (Some(first), Some(second)) => is_number_before(order, first, second),
        _ => false,
    }
}

// The order in which the first number comes before the second.
fn order_of(first: Option<u32>, second: Option<u32>) -> Option<Order>
    ensures right { IsOrderOf result first second }
    ensures known { (order : Order) → comes_before order first second ≡ true → result ≡ Some order }
{
    if comes_before(Order::Rising, first, second) {
        return Some(Order::Rising);
    }
    if comes_before(Order::Falling, first, second) {
        return Some(Order::Falling);
    }
    None
}

// An order, if the first number comes before the second in it.
fn kept_order(order: Option<Order>, first: Option<u32>, second: Option<u32>) -> Option<Order>
    ensures pair { IsOrderOf result first second }
    ensures kept { (ns : List (Option ℕ)) → IsOrdered order ns → IsOrdered result ns }
    ensures known { (o : Order) → order ≡ Some o → comes_before o first second ≡ true
        → result ≡ Some o }
{
    let known = order?;
    if comes_before(known, first, second) {
        order
    } else {
        None
    }
}

// The order of the items with a number in front of them.
fn order_in_front<T: Numbered>(
    items: &VecDeque<T>,
    order: Option<Order>,
    number: Option<u32>,
) -> Option<Order>
    requires { IsOrdered order (map T.number items.now.items) }
    ensures right { IsOrdered result (number ∷ map T.number items.now.items) }
    ensures known { (o : Order) → order ≡ Some o
        → InOrder o (number ∷ map T.number items.now.items) → IsSome result }
    ensures begun { (o : Order) → length items.now.items ≡ 1
        → InOrder o (number ∷ map T.number items.now.items) → result ≡ Some o }
{
    match items.len() {
        0 => Some(Order::Rising),
        1 => order_of(number, number_at(items, 0)),
        _ => kept_order(order, number, number_at(items, 0)),
    }
}

// The order of the items before a place with a number behind them.
fn order_behind<T: Numbered>(
    items: &VecDeque<T>,
    place: usize,
    order: Option<Order>,
    number: Option<u32>,
) -> Option<Order>
    requires within { place ≤ length items.now.items }
    requires ordered { IsOrdered order (take place (map T.number items.now.items)) }
    ensures right { IsOrdered result (take place (map T.number items.now.items) ++ number ∷ []) }
    ensures known { (o : Order) → order ≡ Some o
        → InOrder o (take place (map T.number items.now.items) ++ number ∷ []) → IsSome result }
    ensures begun { (o : Order) → place ≡ 1
        → InOrder o (take place (map T.number items.now.items) ++ number ∷ []) → result ≡ Some o }
    ensures first { place ≡ 0 → IsSome result }
    ensures kept { (o : Order) → 1 < place → order ≡ Some o
        → InOrder o (take place (map T.number items.now.items) ++ number ∷ []) → result ≡ Some o }
{
    match place {
        0 => Some(Order::Rising),
        1 => order_of(number_at(items, 0), number),
        _ => kept_order(order, number_at(items, place - 1), number),
    }
}

// Whether the item at a place comes behind the one before it, if both are there.
fn comes_behind<T: Numbered>(items: &VecDeque<T>, order: Order, place: usize) -> bool
    ensures right { (i : ℕ) → result ≡ true → i + 1 ≡ place → place < length items.now.items
        → comes_before order (number_at (map T.number items.now.items) i)
        (number_at (map T.number items.now.items) place)
        ≡ true }
    ensures known { result ≡ false → (i : ℕ) × (i + 1 ≡ place)
        × (place < length items.now.items)
        × (comes_before order (number_at (map T.number items.now.items) i)
        (number_at (map T.number items.now.items) place)
        ≡ false) }
{
    if place == 0 {
        return true;
    }
    if items.len() <= place {
        return true;
    }
    comes_before(order, number_at(items, place - 1), number_at(items, place))
}

// The order of all items, if it is known of all but the one at a place.
fn order_with<T: Numbered>(items: &VecDeque<T>, order: Order, place: usize) -> Option<Order>
    requires { InOrder order (map T.number (remove items.now.items place)) }
    ensures right { IsOrdered result (map T.number items.now.items) }
    ensures known { InOrder order (map T.number items.now.items) → result ≡ Some order }
{
    if items.len() <= place {
        return Some(order);
    }
    if !comes_behind(items, order, place) {
        return None;
    }
    if !comes_behind(items, order, place + 1) {
        return None;
    }
    Some(order)
}

// The order of all items.
fn whole_order<T: Numbered>(items: &VecDeque<T>, notes: &Notes) -> Option<Order>
    requires { AreRight T.Numbered items.now.items notes.now }
    ensures right { IsOrdered result (map T.number items.now.items) }
    ensures known { (order : Order) → notes.now.order ≡ Some order
        → InOrder order (map T.number items.now.items) → result ≡ Some order }
{
    match notes.lent {
        Some(place) => order_with(items, notes.order?, place),
        None => notes.order,
    }
}

// The size of all items.
fn whole_size<T: Numbered>(items: &VecDeque<T>, notes: &Notes) -> Option<usize>
    requires { AreRight T.Numbered items.now.items notes.now }
    ensures right { IsSum result (sum_by T.size items.now.items) }
    ensures known { (n : ℕ) → notes.now.size ≡ Some n
        → n + part_at T.size items.now.items notes.now.lent < 2 ^ 64
        → result ≡ Some (n + part_at T.size items.now.items notes.now.lent) }
{
    more(notes.size, lent_size(items, notes.lent))
}

// How many items stir.
fn whole_stirring<T: Numbered>(items: &VecDeque<T>, notes: &Notes) -> Option<usize>
    requires { AreRight T.Numbered items.now.items notes.now }
    ensures right { IsSum result (sum_by (one_if T.stirs) items.now.items) }
    ensures known { (n : ℕ) → notes.now.stirring ≡ Some n
        → n + part_at (one_if T.stirs) items.now.items notes.now.lent < 2 ^ 64
        → result ≡ Some (n + part_at (one_if T.stirs) items.now.items notes.now.lent) }
{
    more(notes.stirring, lent_stirring(items, notes.lent))
}

// The notes when the lent item has been taken back.
fn taken_back<T: Numbered>(items: &VecDeque<T>, notes: &Notes) -> Notes
    requires { AreRight T.Numbered items.now.items notes.now }
    ensures right { AreRight T.Numbered items.now.items result }
    ensures none_lent { result.lent ≡ None }
    ensures known_order { (order : Order) → notes.now.order ≡ Some order
        → InOrder order (map T.number items.now.items) → result.order ≡ Some order }
    ensures known_size { (n : ℕ) → notes.now.size ≡ Some n
        → n + part_at T.size items.now.items notes.now.lent < 2 ^ 64
        → result.size ≡ Some (n + part_at T.size items.now.items notes.now.lent) }
    ensures known_stirring { (n : ℕ) → notes.now.stirring ≡ Some n
        → n + part_at (one_if T.stirs) items.now.items notes.now.lent < 2 ^ 64
        → result.stirring ≡ Some (n + part_at (one_if T.stirs) items.now.items notes.now.lent) }
{
    Notes {
        lent: None,
        front: None,
        order: whole_order(items, notes),
        size: whole_size(items, notes),
        stirring: whole_stirring(items, notes),
    }
}

// The notes when the item at this place has been left out, if none was.
fn left_out<T: Numbered>(items: &VecDeque<T>, notes: &Notes, place: usize) -> Notes
    requires right { AreRight T.Numbered items.now.items notes.now }
    requires none_lent { notes.now.lent ≡ None }
    ensures right { AreRight T.Numbered items.now.items result }
    ensures lent { result.lent ≡ Some place }
    ensures order { result.order ≡ notes.now.order }
    ensures known_size { IsSome notes.now.size → IsSome result.size }
    ensures known_stirring { IsSome notes.now.stirring → IsSome result.stirring }
{
    Notes {
        lent: Some(place),
        front: number_before(items, place),
        order: notes.order,
        size: less(notes.size, lent_size(items, Some(place))),
        stirring: less(notes.stirring, lent_stirring(items, Some(place))),
    }
}

// The item at this place is lent, where another was lent last.
#[inline(never)]
fn lend_another<T: Numbered>(items: &VecDeque<T>, notes: &mut Notes, place: usize)
    requires { AreRight T.Numbered items.now.items notes.old }
    ensures right { AreRight T.Numbered items.now.items notes.new }
    ensures lent { notes.new.lent ≡ Some place }
{
    *notes = left_out(items, &taken_back(items, notes), place);
}

// The item at this place is lent.
#[inline(always)]
pub(crate) fn lend<T: Numbered>(items: &VecDeque<T>, notes: &mut Notes, place: usize)
    requires { AreRight T.Numbered items.now.items notes.old }
    ensures right { AreRight T.Numbered items.now.items notes.new }
    ensures lent { notes.new.lent ≡ Some place }
{
    if notes.lent != Some(place) {
        lend_another(items, notes, place);
    }
}

// The notes on no item.
pub(crate) fn no_notes() -> Notes
    ensures none_lent { result.lent ≡ None }
    ensures size { result.size ≡ Some 0 }
    ensures stirring { result.stirring ≡ Some 0 }
{
    Notes {
        lent: None,
        front: None,
        order: None,
        size: Some(0),
        stirring: Some(0),
    }
}

// The notes when an item has joined the others and all are in this order, if none was lent.
fn joined<T: Numbered>(notes: &Notes, item: &T, order: Option<Order>) -> Notes
    requires { notes.now.lent ≡ None }
    ensures none_lent { result.lent ≡ None }
    ensures order { result.order ≡ order }
    ensures size { (n : ℕ) → IsSum notes.now.size n → IsSum result.size (n + T.size item.now) }
    ensures stirring { (n : ℕ) → IsSum notes.now.stirring n
        → IsSum result.stirring (n + one_if T.stirs item.now) }
    ensures known_size { (n : ℕ) → notes.now.size ≡ Some n → n + T.size item.now < 2 ^ 64
        → IsSome result.size }
    ensures known_stirring { (n : ℕ) → notes.now.stirring ≡ Some n
        → n + one_if T.stirs item.now < 2 ^ 64 → IsSome result.stirring }
{
    Notes {
        lent: None,
        front: None,
        order,
        size: more(notes.size, item.size()),
        stirring: more(notes.stirring, usize::from(item.stirs())),
    }
}

// The notes when an item stands in front of the others.
pub(crate) fn joined_in_front<T: Numbered>(items: &VecDeque<T>, notes: &Notes, item: &T) -> Notes
    requires { AreRight T.Numbered items.now.items notes.now }
    ensures right { AreRight T.Numbered (item.now ∷ items.now.items) result }
    ensures known_order { (o : Order) → notes.now.order ≡ Some o
        → InOrder o (map T.number items.now.items)
        → InOrder o (T.number item.now ∷ map T.number items.now.items) → IsSome result.order }
    ensures begun_order { (o : Order) → length items.now.items ≡ 1
        → InOrder o (T.number item.now ∷ map T.number items.now.items) → result.order ≡ Some o }
    ensures known_size { (n : ℕ) → notes.now.size ≡ Some n
        → n + part_at T.size items.now.items notes.now.lent + T.size item.now < 2 ^ 64
        → IsSome result.size }
    ensures known_stirring { (n : ℕ) → notes.now.stirring ≡ Some n
        → n + part_at (one_if T.stirs) items.now.items notes.now.lent + one_if T.stirs item.now
        < 2 ^ 64 → IsSome result.stirring }
{
    let whole = taken_back(items, notes);
    let order = order_in_front(items, whole.order, item.number());
    joined(&whole, item, order)
}

// The notes when an item stands behind those before a place, if none was lent.
fn joined_behind<T: Numbered>(items: &VecDeque<T>, place: usize, notes: &Notes, item: &T) -> Notes
    requires within { place ≤ length items.now.items }
    requires right { AreRight T.Numbered (take place items.now.items) notes.now }
    requires none_lent { notes.now.lent ≡ None }
    ensures right { AreRight T.Numbered (take place items.now.items ++ item.now ∷ []) result }
    ensures none_lent { result.lent ≡ None }
    ensures known_order { (o : Order) → notes.now.order ≡ Some o
        → InOrder o (take place (map T.number items.now.items) ++ T.number item.now ∷ [])
        → IsSome result.order }
    ensures begun_order { (o : Order) → place ≡ 1
        → InOrder o (take place (map T.number items.now.items) ++ T.number item.now ∷ [])
        → result.order ≡ Some o }
    ensures known_size { (n : ℕ) → notes.now.size ≡ Some n → n + T.size item.now < 2 ^ 64
        → IsSome result.size }
    ensures known_stirring { (n : ℕ) → notes.now.stirring ≡ Some n
        → n + one_if T.stirs item.now < 2 ^ 64 → IsSome result.stirring }
    ensures first_order { place ≡ 0 → IsSome result.order }
    ensures kept_order { (o : Order) → 1 < place → notes.now.order ≡ Some o
        → InOrder o (take place (map T.number items.now.items) ++ T.number item.now ∷ [])
        → result.order ≡ Some o }
{
    let order = order_behind(items, place, notes.order, item.number());
    joined(notes, item, order)
}

// The notes when an item stands behind the others.
pub(crate) fn joined_at_back<T: Numbered>(items: &VecDeque<T>, notes: &Notes, item: &T) -> Notes
    requires { AreRight T.Numbered items.now.items notes.now }
    ensures right { AreRight T.Numbered (items.now.items ++ item.now ∷ []) result }
    ensures known_size { (n : ℕ) → notes.now.size ≡ Some n
        → n + part_at T.size items.now.items notes.now.lent + T.size item.now < 2 ^ 64
        → IsSome result.size }
    ensures known_stirring { (n : ℕ) → notes.now.stirring ≡ Some n
        → n + part_at (one_if T.stirs) items.now.items notes.now.lent + one_if T.stirs item.now
        < 2 ^ 64 → IsSome result.stirring }
    ensures known_order { (o : Order) → notes.now.order ≡ Some o
        → InOrder o (map T.number items.now.items)
        → InOrder o (map T.number items.now.items ++ T.number item.now ∷ [])
        → IsSome result.order }
    ensures begun_order { (o : Order) → length items.now.items ≡ 1
        → InOrder o (map T.number items.now.items ++ T.number item.now ∷ [])
        → result.order ≡ Some o }
{
    joined_behind(items, items.len(), &taken_back(items, notes), item)
}

// The notes on these items, counted anew.
pub(crate) fn counted<T: Numbered>(items: &VecDeque<T>) -> Notes
    ensures right { AreRight T.Numbered items.now.items result }
    ensures known_order { (o : Order) → InOrder o (map T.number items.now.items)
        → 0 < length items.now.items → IsSome result.order }
{
    let mut notes = no_notes();
    for place in 0..items.len() {
        if let Some(item) = item_at(items, place) {
            notes = joined_behind(items, place, &notes, item);
        }
    }
    notes
}

// Whether the items take no more than this room, if no number holds what they take.
fn fit_one_by_one<T: Numbered>(items: &VecDeque<T>, room: usize) -> bool
    ensures { result ≡ leb (sum_by T.size items.now.items) room }
{
    let mut left = room;
    for item in items.iter() {
        let size = item.size();
        if left < size {
            return false;
        }
        left -= size;
    }
    true
}

// Whether no item stirs, if no number holds how many do.
fn none_stirs<T: Numbered>(items: &VecDeque<T>) -> bool
    ensures { result ≡ not (list_any T.stirs items.now.items) }
{
    for item in items.iter() {
        if item.stirs() {
            return false;
        }
    }
    true
}

// Whether all items together take no more than this room.
pub(crate) fn fits<T: Numbered>(items: &VecDeque<T>, notes: &Notes, room: usize) -> bool
    requires { AreRight T.Numbered items.now.items notes.now }
    ensures { result ≡ leb (sum_by T.size items.now.items) room }
{
    match whole_size(items, notes) {
        Some(size) => size <= room,
        None => fit_one_by_one(items, room),
    }
}

// Whether no item stirs.
pub(crate) fn is_calm<T: Numbered>(items: &VecDeque<T>, notes: &Notes) -> bool
    requires { AreRight T.Numbered items.now.items notes.now }
    ensures { result ≡ not (list_any T.stirs items.now.items) }
{
    match whole_stirring(items, notes) {
        Some(stirring) => stirring == 0,
        None => none_stirs(items),
    }
}

// How far a number is from the first one, if the numbers between are all there.
fn distance(order: Order, first: Option<u32>, number: u32) -> u32
    ensures { result ≡ distance order first number }
{
    match first {
        Some(first) => match order {
            Order::Rising => number.saturating_sub(first),
            Order::Falling => first.saturating_sub(number),
        },
        None => 0,
    }
}

// Where the items whose numbers come before this one end.
fn place_behind<T: Numbered>(items: &VecDeque<T>, order: Order, number: u32) -> usize
    requires { InOrder order (map T.number items.now.items) }
    ensures front { (k : ℕ) → k < result
        → comes_before order (number_at (map T.number items.now.items) k) (Some number) ≡ true }
    ensures back { (k : ℕ) → result ≤ k
        → comes_before order (number_at (map T.number items.now.items) k) (Some number) ≡ false }
{
    let mut low = 0;
    let mut high = items.len();
    while low < high {
        let middle = low + (high - low) / 2;
        if comes_before(order, number_at(items, middle), Some(number)) {
            low = middle + 1;
        } else {
            high = middle;
        }
    }
    low
}

// Whether the number in front of a place, if there is a place in front of it, comes before this one.
fn is_behind(order: Order, place: usize, front: Option<u32>, number: u32) -> bool
    ensures { result ≡ true → (i : ℕ) → place ≡ i + 1
        → comes_before order front (Some number) ≡ true }
{
    place == 0 || comes_before(order, front, Some(number))
}

// The item that was lent last, if it is the first with this number: who is looked for is often who
// was changed last. The items are in order but for that one, so it is the first if the one in front
// of it comes before it. It is short, and stands at each place that looks for an item.
#[inline(always)]
fn lent_found<'a, T: Numbered>(
    items: &'a VecDeque<T>,
    notes: &Notes,
    number: u32,
) -> Option<(usize, &'a T)>
    requires { AreRight T.Numbered items.now.items notes.now }
    ensures place { IfSome result (λ found.
        position_from (has_number number) 0 (map T.number items.now.items) ≡ Some found.0) }
    ensures item { IfSome result (λ found.
        Some found.1.now ≡ slice_get items.now.items found.0) }
{
    let place = notes.lent?;
    let order = notes.order?;
    let item = item_at(items, place)?;
    if is_number(number, item.number()) && is_behind(order, place, notes.front, number) {
        Some((place, item))
    } else {
        None
    }
}

// Where the item with this number stands, if their numbers are in order.
fn place_in_order<T: Numbered>(items: &VecDeque<T>, order: Order, number: u32) -> Option<usize>
    requires { InOrder order (map T.number items.now.items) }
    ensures { result ≡ position_from (has_number number) 0 (map T.number items.now.items) }
{
    let near = distance(order, number_at(items, 0), number) as usize;
    if is_number(number, number_at(items, near)) {
        return Some(near);
    }
    let place = place_behind(items, order, number);
    if is_number(number, number_at(items, place)) {
        return Some(place);
    }
    None
}

// Where the first item with this number stands, in whatever order the numbers are.
fn place_one_by_one<T: Numbered>(items: &VecDeque<T>, number: u32) -> Option<usize>
    ensures { result ≡ position_from (λ x. has_number number (T.number x)) 0 items.now.items }
{
    items.iter().position(|item| item.number() == Some(number))
}

// Whether a place is in front of the lent one, or the item there has another number.
fn is_clear<T: Numbered>(items: &VecDeque<T>, lent: usize, place: usize, number: u32) -> bool
    ensures { result ≡ true
        → (ltb place lent || not (has_number number (number_at (map T.number items.now.items) lent)))
        ≡ true }
{
    place < lent || !is_number(number, number_at(items, lent))
}

// Where the first item with this number stands, if it is another than the one lent last and the
// numbers from the front up to it are all there.
fn near_place<T: Numbered>(items: &VecDeque<T>, notes: &Notes, number: u32) -> Option<usize>
    requires { AreRight T.Numbered items.now.items notes.now }
    ensures { (p : ℕ) → result ≡ Some p
        → position_from (has_number number) 0 (map T.number items.now.items) ≡ Some p }
{
    let order = notes.order?;
    let lent = notes.lent?;
    let near = distance(order, number_at(items, 0), number) as usize;
    if near != lent
        && is_number(number, number_at(items, near))
        && is_clear(items, lent, near, number)
    {
        Some(near)
    } else {
        None
    }
}

// Where the first item with this number stands, whichever was lent last.
#[inline(never)]
fn place_of_any<T: Numbered>(items: &VecDeque<T>, notes: &Notes, number: u32) -> Option<usize>
    requires { AreRight T.Numbered items.now.items notes.now }
    ensures { result ≡ position_from (λ x. has_number number (T.number x)) 0 items.now.items }
{
    if let Some(place) = near_place(items, notes, number) {
        return Some(place);
    }
    match whole_order(items, notes) {
        Some(order) => place_in_order(items, order, number),
        None => place_one_by_one(items, number),
    }
}

// Where the first item with this number stands.
#[inline(always)]
pub(crate) fn place_of<T: Numbered>(
    items: &VecDeque<T>,
    notes: &Notes,
    number: u32,
) -> Option<usize>
    requires { AreRight T.Numbered items.now.items notes.now }
    ensures { result ≡ position_from (λ x. has_number number (T.number x)) 0 items.now.items }
{
    match lent_found(items, notes, number) {
        Some((place, _)) => Some(place),
        None => place_of_any(items, notes, number),
    }
}

// The first item with this number, whichever was lent last.
#[inline(never)]
fn find_any<'a, T: Numbered>(items: &'a VecDeque<T>, notes: &Notes, number: u32) -> Option<&'a T>
    requires { AreRight T.Numbered items.now.items notes.now }
    ensures { option_copied result
        ≡ find (λ x. has_number number (T.number x)) items.now.items }
{
    match place_of_any(items, notes, number) {
        Some(place) => item_at(items, place),
        None => None,
    }
}

// The first item with this number, if it is there.
#[inline(always)]
pub(crate) fn found<'a, T: Numbered>(
    items: &'a VecDeque<T>,
    notes: &Notes,
    number: u32,
) -> Option<&'a T>
    requires { AreRight T.Numbered items.now.items notes.now }
    ensures { option_copied result
        ≡ find (λ x. has_number number (T.number x)) items.now.items }
{
    match lent_found(items, notes, number) {
        Some((_, item)) => Some(item),
        None => find_any(items, notes, number),
    }
}

// The item at a place is taken out.
fn take_out<T: Numbered + Drop>(items: &mut VecDeque<T>, notes: &mut Notes, place: usize)
    requires { AreRight T.Numbered items.old.items notes.old }
    ensures gone { items.new.items ≡ remove items.old.items place }
    ensures right { AreRight T.Numbered items.new.items notes.new }
{
    lend(items, notes, place);
    notes.lent = None;
    items.remove(place);
}

// No item with this number is left, if the numbers are in this order.
fn forget_in_order<T: Numbered + Drop>(
    items: &mut VecDeque<T>,
    notes: &mut Notes,
    order: Order,
    number: u32,
)
    requires right { AreRight T.Numbered items.old.items notes.old }
    requires ordered { InOrder order (map T.number items.old.items) }
    ensures gone { items.new.items ≡ without (λ x. has_number number (T.number x)) items.old.items }
    ensures right { AreRight T.Numbered items.new.items notes.new }
{
    match place_in_order(items, order, number) {
        Some(place) => take_out(items, notes, place),
        None => {}
    }
}

// No item with this number is left, in whatever order the numbers are.
fn forget_one_by_one<T: Numbered + Drop>(items: &mut VecDeque<T>, number: u32)
    ensures { items.new.items ≡ without (λ x. has_number number (T.number x)) items.old.items }
{
    items.retain(|item| !is_number(number, item.number()));
}

// No item with this number is left.
pub(crate) fn forget<T: Numbered + Drop>(items: &mut VecDeque<T>, notes: &mut Notes, number: u32)
    requires { AreRight T.Numbered items.old.items notes.old }
    ensures gone { items.new.items ≡ without (λ x. has_number number (T.number x)) items.old.items }
    ensures right { AreRight T.Numbered items.new.items notes.new }
{
    match whole_order(items, notes) {
        Some(order) => forget_in_order(items, notes, order, number),
        None => {
            forget_one_by_one(items, number);
            *notes = counted(items);
        }
    }
}
