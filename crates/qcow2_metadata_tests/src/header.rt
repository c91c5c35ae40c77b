//! Tests of headers, their features, and their bytes as loaded and written.

mod accepted_features;
mod encryption_header;
mod features;
mod fixtures;
mod header_load;
mod header_texts;
mod header_update;
mod header_write;
mod names;
mod new_headers;
mod refused_calls;
mod rich_header;
mod snapshot_table;
mod writable_load;
