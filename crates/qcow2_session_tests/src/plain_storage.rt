//! Tests that the calls that read and write an image need a storage with its four calls, and no device.

ghost use Rattle.std.specs.Prelude.{◌+◌, ◌≤◌, length};
ghost use Rattle.std.proofs.lemmas.List.{get_or_past};
ghost use Rattle.qcow2_base.specs.Format.{max_file_length};
ghost use Rattle.qcow2_base.specs.Storage.Memory.{memory_bytes, memory_state};
ghost use Rattle.qcow2_base.specs.Storage.{ReadsBytes, WritesBytes};

use qcow2_base::{Fault, GuestOffset, HostCluster, HostOffset, MemStorage, Storage, StorageFault};
use qcow2_calls::{
    load_block, load_header, load_table, reload_block, reload_l2_table, write_block,
    write_block_changes, write_block_if_modified, write_entry, write_header,
    write_l1_table_pointer, write_l2_table_if_modified, write_reftable_pointer, write_size,
    write_table,
};
use qcow2_metadata::{Header, L1Table, L2Mapping, L2Table, RefTable};
use qcow2_session::commands::{
    count_references, edit_entries, list_tables, print_info, print_mapping_at,
};
use qcow2_session::{Edit, Step};
use qcow2_session_calls::{edit_image, list_l2_table, lookup, lookup_image, step_image};
use qcow2_testing::sample_image::sample_image;
use qcow2_testing::{counted, same, same_bytes};
use std::alloc::Global;
use std::test::Fail;

// An image in memory that is no device.
#[derive(Drop)]
struct PlainStorage {
    image: MemStorage,
}

impl Storage for PlainStorage {
    ghost state = { λ plain. memory_state plain.image };

    fn mem_align(&self) -> usize {
        self.image.mem_align()
    }

    fn req_align(&self) -> usize {
        self.image.req_align()
    }

    fn read(&mut self, buf: &mut [u8], offset: u64) -> Result<(), StorageFault>
        requires { offset + length buf.old ≤ max_file_length }
        ensures { ReadsBytes result offset buf.new
            (memory_state self.old.image) (memory_state self.new.image) }
    {
        self.image.read(buf, offset)
    }

    fn write(&mut self, buf: &[u8], offset: u64) -> Result<(), StorageFault>
        requires { offset + length buf.now ≤ max_file_length }
        ensures { WritesBytes result offset buf.now
            (memory_state self.old.image) (memory_state self.new.image) }
    {
        self.image.write(buf, offset)
    }

    ghost mem_align_is_power = { λ plain. plain.image.aligned };

    ghost req_align_is_power = { λ plain. plain.image.aligned };

    ghost byte_fits = { λ plain offset. plain.image.bytes_fit offset };

    ghost ends = { λ plain offset past. get_or_past (memory_bytes plain.image) offset 0 past };
}

// Loads and writes the header, its tables and its refcount block.
fn pass_metadata<S: Storage>(alloc: Global, image: &mut S) -> Result<Header, Fault> {
    let mut header = load_header(alloc, image, true)?;
    write_header(&mut header, image)?;
    write_size(&header, image)?;
    write_l1_table_pointer(&header, image)?;
    write_reftable_pointer(&header, image)?;
    let mut l1_table: L1Table = load_table(alloc, image, &header, HostCluster(1), 1)?;
    write_table(&mut l1_table, image)?;
    write_entry(&mut l1_table, image, 0)?;
    let mut reftable: RefTable = load_table(alloc, image, &header, HostCluster(3), 64)?;
    write_table(&mut reftable, image)?;
    let mut l2_table: L2Table = load_table(alloc, image, &header, HostCluster(2), 64)?;
    reload_l2_table(&mut l2_table, image, &header, HostCluster(2))?;
    write_l2_table_if_modified(&mut l2_table, image, HostCluster(2))?;
    let mut block = load_block(alloc, image, &header, HostCluster(4))?;
    reload_block(&mut block, image, &header, HostCluster(4))?;
    write_block(&mut block, image)?;
    write_block_if_modified(&mut block, image, HostCluster(4))?;
    write_block_changes(&mut block, image, HostCluster(4))?;
    Ok(header)
}

// Returns the mapping of guest offset 1543, by both lookups, before guest cluster 3 is discarded.
fn look_up<S: Storage>(
    alloc: Global,
    image: &mut S,
    header: &Header,
) -> Result<[L2Mapping; 2], Fault> {
    let offset = GuestOffset(1543);
    let l1_table: L1Table = load_table(alloc, image, header, HostCluster(1), 1)?;
    Ok([
        lookup(alloc, image, header, &l1_table, offset)?,
        lookup_image(alloc, image, offset)?,
    ])
}

// Discards guest cluster 3, lowers the refcount of its host cluster, and returns what commands print.
fn change_and_print<S: Storage>(
    alloc: Global,
    image: &mut S,
    header: &Header,
) -> Result<Vec<u8>, Fault> {
    let mut out = Vec::new(alloc);
    let discard = [Edit::Discard { index: 3 }];
    let drop_one = [Step::Dec { index: 5 }];
    edit_entries(alloc, image, header, 0, &discard, &mut out)?;
    edit_image(alloc, image, header, HostCluster(2), &discard)?;
    count_references(alloc, image, header, HostCluster(4), &drop_one, &mut out)?;
    step_image(alloc, image, header, HostCluster(4), &[])?;
    print_mapping_at(alloc, image, header, GuestOffset(1543), &mut out)?;
    list_tables(alloc, image, header, &mut out)?;
    list_l2_table(alloc, image, 9, HostCluster(2), &mut out)?;
    Ok(out)
}

#[test]
fn reading_and_writing_an_image_asks_for_no_device(rt: HostRuntime) -> Result<(), Fail> {
    let alloc = rt.alloc();
    let mut plain = PlainStorage {
        image: sample_image(alloc, 9, counted!())?,
    };
    let header = pass_metadata(alloc, &mut plain)?;
    let data = L2Mapping::DataFile {
        host_cluster: HostCluster(5),
        copied: true,
    };
    same(
        look_up(alloc, &mut plain, &header)?,
        [data, data],
        "guest offset 1543",
    )?;
    let out = change_and_print(alloc, &mut plain, &header)?;
    same_bytes(
        &out,
        b"freed 5 1\nok 1\nbacking 0x600\n",
        "what was printed",
    )
}
