// The types of the knowledge layout that code and definitions share, the limits, and the places of fields. No function stands here.
#![tactic(auto)]

// document 01's limits: the most replicas, ranges and records
pub const REPLICAS: u32 = 16;

pub const RANGES: u32 = 64;

pub const RECORDS: u32 = 256;

// the largest limits that a call may be given
pub const LARGEST_REPLICAS: u32 = 16;

pub const LARGEST_RANGES: u32 = 64;

pub const LARGEST_RECORDS: u32 = 256;

// the places of the replica ids, of the vectors where there is no replica, and of the ranges where there is nothing else
pub const IDS_PLACE: usize = 27;

pub const VECTORS_PLACE: usize = 48;

pub const RANGES_PLACE: usize = 64;

// The most replicas and ranges of a knowledge, and the most records of a store or batch.
#[derive(Clone, Copy)]
pub struct Limits {
    pub replicas: u32,
    pub ranges: u32,
    pub records: u32,
}

// The place of a replica id in a knowledge's replica map, counted from 0.
#[derive(Clone, Copy)]
pub struct ReplicaKey(pub u32);

// The place of a clock vector in a knowledge, counted from 0.
#[derive(Clone, Copy)]
pub struct VectorIndex(pub u32);

// document 01's limits
pub const LIMITS: Limits = Limits {
    replicas: REPLICAS,
    ranges: RANGES,
    records: RECORDS,
};

// A number that was read, or a count of what was read, and the place after it.
#[derive(Clone, Copy)]
pub struct Read {
    pub number: usize,
    pub next: usize,
}

// The sizes of a knowledge: its replicas, clock vectors, elements of all vectors and ranges.
#[derive(Clone, Copy)]
pub struct Counts {
    pub r: usize,
    pub v: usize,
    pub e: usize,
    pub g: usize,
}
