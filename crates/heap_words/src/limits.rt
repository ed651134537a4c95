//! The limits of a table, of the objects in it, and of the words that say them. Each stands here, and is
//! cited by all code and all definitions.

/// The most passes. They count from 1.
pub const MOST_PASSES: u32 = 8;

/// The most regions that a pass has of its own.
pub const MOST_QUOTA: u32 = 256;

/// The most regions of the pool.
pub const MOST_POOL: u32 = 512;

/// The most words of the wide area.
pub const MOST_WIDE: u32 = 65_536;

/// The most regions: those of the pool, and those of each pass.
pub const MOST_REGIONS: u32 = MOST_POOL + MOST_PASSES * MOST_QUOTA;

/// The words of a region.
pub const REGION_WORDS: u32 = 64;

/// The registers of a pass, `a` to `h`.
pub const REGISTERS: usize = 8;

/// The most fields of an object.
pub const MOST_FIELDS: u32 = 30;

/// Numbers in fields are below 2^48.
pub const NUMBER_LIMIT: u64 = 1 << 48;

/// Birth numbers are below 2^24.
pub const BIRTH_LIMIT: u32 = 1 << 24;

/// Addresses are below 2^20.
pub const ADDRESS_LIMIT: u32 = 1 << 20;

/// How far the birth numbers of two passes are apart: object s of pass p has p times this one and s.
pub const BIRTHS_BETWEEN_PASSES: u32 = 524_288;

/// The most objects that a pass makes.
pub const BIRTHS_OF_PASS: u32 = 262_144;

/// The birth number of the common object, which is there from the start.
pub const COMMON_BIRTH: u32 = 1;

/// The fields of the common object.
pub const COMMON_LEN: u32 = 8;
