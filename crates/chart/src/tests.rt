// The byte chart at both sides of each of its edges.
use crate::bytes::{ByteChart, most_words};
use crate::cells::{cell_of, cells_of};
use crate::meaning::Chart;

#[test]
fn room_is_what_the_bytes_give(rt: HostRuntime) {
    let mut short = [1u8; 639];
    let mut enough = [1u8; 640];
    assert_eq!(rt; ByteChart::new(&mut short).capacity(), 3);
    assert_eq!(rt; ByteChart::new(&mut enough).capacity(), 4);
    assert_eq!(rt; most_words(63), 0);
    assert_eq!(rt; most_words(64), 1);
    assert_eq!(rt; most_words(52479), 39);
    assert_eq!(rt; most_words(52480), 40);
    assert_eq!(rt; most_words(55104), 40);
    assert_eq!(rt; cells_of(40), 820);
    assert_eq!(rt; cell_of(1, 1), 0);
    assert_eq!(rt; cell_of(40, 40), 819);
}

#[test]
fn refused_start_alters_nothing(rt: HostRuntime) {
    let mut bytes = [1u8; 640];
    let mut chart = ByteChart::new(&mut bytes);
    assert!(rt; !chart.has(1, 1, 0));
    assert!(rt; chart.start(4, 64));
    assert!(rt; chart.put(1, 4, 63));
    assert!(rt; !chart.start(5, 64));
    assert!(rt; !chart.start(4, 65));
    assert!(rt; chart.has(1, 4, 63));
    assert!(rt; chart.start(4, 64));
    assert!(rt; !chart.has(1, 4, 63));
}

#[test]
fn put_is_inside_and_split_is_lowest(rt: HostRuntime) {
    let mut bytes = [1u8; 640];
    let mut chart = ByteChart::new(&mut bytes);
    assert!(rt; chart.start(3, 2));
    assert!(rt;
        !chart.put(0, 1, 0) && !chart.put(2, 1, 0) && !chart.put(1, 4, 0) && !chart.put(1, 1, 2)
    );
    assert!(rt; chart.put(2, 2, 0) && chart.put(1, 2, 0) && chart.put(3, 3, 1));
    assert_eq!(rt; chart.split(0, 1, 1, 3), Some(2));
    assert!(rt; chart.put(1, 1, 0) && chart.put(2, 3, 1));
    assert_eq!(rt; chart.split(0, 1, 1, 3), Some(1));
    assert_eq!(rt; chart.split(1, 0, 1, 3), None);
}
