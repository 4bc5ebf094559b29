//! The files of a spool: which requests came in, which were answered, and what a crash leaves of them.
//!
//! A segment is a file of batches. [`Segment::append`] adds one to a [`Device`], which a crash leaves whole or not at all, and
//! [`recover`] reads them again. A batch is entries: [`put_entry`] writes one, [`read_entries`] reads them. [`Counted`] has
//! those of all segments that count. [`LoggedFile`] is a file as a device, and [`make_segment`] makes one in a folder.
//!
//! The definitions that the contracts cite are in `specs/`: `Entries.antt` and `Batches.antt` have the octets, `Devices.antt`
//! and `Calls.antt` what a crash may leave, `Segments.antt` a segment that a run writes, `Counting.antt` which entries count.
#![tactic(auto)]

mod batches;
mod call_log;
mod check_sum;
mod counting;
mod device;
mod entries;
mod entry;
mod fields;
mod folder;
mod heads;
mod laws;
mod logged_file;
mod reading;
mod segment;
mod sum_tables;

pub use batches::{FoundBatches, is_sound, read_batches};
pub use call_log::CallLog;
pub use check_sum::crc32_of;
pub use counting::{
    Counted, OpenRequest, RememberedAnswer, an_entry_closes_its_request, is_to_write_again,
    sort_by_arrival, the_oldest_can_go, what_counts_in_parts, what_is_written_once_more,
};
pub use device::{Device, DeviceFault, Step};
pub use entries::{ReadError, put_entry, read_entries};
pub use entry::{Answered, Begun, Came, GivenUp, Head, LocalAddress};
pub use folder::{
    SegmentFile, find_segment, make_folder, make_segment, remove_segment, segment_numbers,
    set_segment_aside,
};
pub use laws::what_is_read_is_one;
pub use logged_file::{FileCalls, LoggedFile};
pub use reading::{
    BatchError, Fault, FaultKind, SegmentRead, SpoolRead, VERSION, count_segment,
    fault_of_beginning, read_batch, read_segment, read_spool,
};
pub use segment::{AppendError, MOST_OCTETS, Segment, begin, recover};
