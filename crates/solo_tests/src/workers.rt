//! Workers that have done nothing yet.

use vm_blkwork::Worker;
use vm_host::MemImage;

#[test]
fn a_new_worker_has_no_image() {
    let worker: Worker<MemImage> = Worker::new(0, 2);
    prove!(worker.out.is_none());
}
