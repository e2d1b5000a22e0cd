// The vector chart at both sides of each of its edges.
use crate::{VectorChart, most_words};
use chart::Chart;

#[test]
fn room_is_what_the_vectors_give(rt: HostRuntime) {
    let mut short = [1; 511];
    let mut enough = [1; 512];
    assert_eq!(rt; VectorChart::new(&mut short).capacity(), 3);
    assert_eq!(rt; VectorChart::new(&mut enough).capacity(), 4);
    assert_eq!(rt; most_words(127), 0);
    assert_eq!(rt; most_words(128), 1);
    assert_eq!(rt; most_words(5119), 39);
    assert_eq!(rt; most_words(5120), 40);
    assert_eq!(rt; most_words(5248), 40);
}

#[test]
fn refused_start_alters_nothing(rt: HostRuntime) {
    let mut vectors = [u64::MAX; 512];
    let mut chart = VectorChart::new(&mut vectors);
    assert!(rt; !chart.has(1, 1, 0));
    assert!(rt; chart.start(4, 64));
    assert!(rt; chart.put(1, 4, 63));
    assert!(rt; !chart.start(5, 64));
    assert!(rt; !chart.start(4, 65));
    assert!(rt; chart.has(1, 4, 63));
    assert!(rt; chart.start(4, 64));
    assert!(rt; !chart.has(1, 4, 63));
}

#[test]
fn put_is_inside_and_split_is_lowest(rt: HostRuntime) {
    let mut vectors = [u64::MAX; 512];
    let mut chart = VectorChart::new(&mut vectors);
    assert!(rt; chart.start(3, 2));
    assert!(rt;
        !chart.put(0, 1, 0) && !chart.put(2, 1, 0) && !chart.put(1, 4, 0) && !chart.put(1, 1, 2)
    );
    assert!(rt; chart.put(2, 2, 0) && chart.put(1, 2, 0) && chart.put(3, 3, 1));
    assert_eq!(rt; chart.split(0, 1, 1, 3), Some(2));
    assert!(rt; chart.put(1, 1, 0) && chart.put(2, 3, 1));
    assert_eq!(rt; chart.split(0, 1, 1, 3), Some(1));
    assert_eq!(rt; chart.split(1, 0, 1, 3), None);
}
