//! Each call once, with ample memory.
use world_tables::{List, Table};

#[test]
fn a_list_at_both_ends_and_at_places(rt: HostRuntime) {
    let mut list = List::new(rt.alloc());
    assert!(rt; list.is_empty());
    list.push_back(3).expect(&rt, "memory");
    list.push_front(1).expect(&rt, "memory");
    list.insert(1, 2).expect(&rt, "memory");
    let copy = list.clone().expect(&rt, "memory");
    assert!(rt; [list.front(), list.get(2)] == [Some(&1), Some(&3)]);
    assert!(rt; (list.get_or(1, 8), list.get_or(3, 8)) == (2, 8));
    if let Some(item) = list.front_mut() {
        *item = 7;
    }
    if let Some(item) = list.get_mut(1) {
        *item += 3;
    }
    let taken = [
        list.remove(2),
        list.pop_front(),
        list.pop_front(),
        list.pop_front(),
    ];
    assert!(rt; taken == [Some(3), Some(7), Some(5), None]);
    for item in [4, 9, 6] {
        list.push_back(item).expect(&rt, "memory");
    }
    list.retain(|item| *item % 2 == 0);
    assert!(rt; (list.pop_front(), list.len()) == (Some(4), 1));
    list.clear();
    assert!(rt; (list.len(), copy.len()) == (0, 3));
    assert!(rt; copy.iter().any(|item| *item == 2));
}

#[test]
fn a_table_by_number(rt: HostRuntime) {
    let mut table = Table::new(rt.alloc());
    assert!(rt; table.get(4).is_none());
    for (number, item) in [(4, 40), (9, 90), (6, 60), (9, 91)] {
        table.put(number, item).expect(&rt, "memory");
    }
    if let Some(item) = table.get_mut(6) {
        *item = 61;
    }
    assert!(rt; table.get_mut(5).is_none());
    assert!(rt; [table.get(4), table.get(6), table.get(9)] == [Some(&40), Some(&61), Some(&91)]);
}
