use crate::index::{Index, bucket};
use crate::queue::Queue;
use crate::refusals::{Full, NoSuchRow};
use crate::table::Table;

#[test]
fn table_fills_up_and_shrinks(rt: HostRuntime) {
    let mut words = [0; 3];
    let mut pairs: Table<2> = Table::new(&mut words);
    let pushed = [pairs.push(&[1, 2]), pairs.push(&[3, 4])];
    let set = [pairs.set(0, &[5, 6]), pairs.set(1, &[7, 8])];
    let word = pairs.get(0, 1);
    pairs.truncate(0);
    assert!(rt;
        pushed == [Ok(()), Err(Full)]
            && set == [Ok(()), Err(NoSuchRow)]
            && word == Some(6)
            && pairs.row(0).is_none()
    );
}

#[test]
fn queue_is_used_up(rt: HostRuntime) {
    let mut words = [0; 2];
    let mut queue = Queue::new(&mut words);
    let pushed = [queue.push(7), queue.push(8)];
    let popped = [queue.pop(), queue.pop(), queue.pop()];
    let refused = queue.push(9);
    assert!(rt;
        pushed == [Ok(()), Ok(())] && popped == [Some(7), Some(8), None] && refused == Err(Full)
    );
}

#[test]
fn bucket_has_newest_first(rt: HostRuntime) {
    let mut heads = [9; 2];
    let mut next = [9; 2];
    let mut index = Index::new(&mut heads, &mut next);
    let puts = bucket(b"puts", 2);
    let inserted = [
        index.insert(0, puts),
        index.insert(1, puts),
        index.insert(2, puts),
    ];
    let walk = [index.first(puts), index.older(1), index.older(0)];
    assert!(rt; inserted == [Ok(()), Ok(()), Err(Full)] && walk == [Some(1), Some(0), None]);
}
