//! A cache of robots, by the addresses of their robots.txt files.
ghost use Rattle.std.specs.Prelude.{◌≡◌, ◌+◌, ◌-◌, ◌≤◌, ℕ, if◌then◌else◌, is_some, IfErr, IfOk, IsSomeAnd, List, None, Ok, OnErr, OnOk, Some, option_copied, remove, string_bytes, take};
ghost use Rattle.std.specs.String.{string_eq};
ghost use Rattle.indexmap.specs.IndexMap.{get_by_text, index_map_len, insert_entry};
ghost use Rattle.robots_examples.specs.Cache.{IsNoAddressOrMemory, IsCacheError, left_after, most_robots, with_room};
ghost use Rattle.robots_examples.specs.declared.cache.CacheError.TheVariants.{Memory};
ghost use Rattle.texting_robots.specs.Callers.{IsRobotOfFile, file_limit, robots_address};

use indexmap::IndexMap;
use std::alloc::{AllocFailed, Global};
use texting_robots::{Robot, get_robots_url};
use thiserror::Error;
use url::ParseError;

/// The maximum number of robots in a cache.
pub const MAX_ROBOTS: usize = 64;

/// Why no robot was stored. The variant and the message have the cause.
#[derive(Debug, Drop, Error)]
pub enum CacheError {
    /// The URL has no robots.txt address, an allocation failed, or the URL is too long for `url`.
    #[error("No address of a robots.txt file: {0}")]
    Url(ParseError),
    /// The file is rejected for the crawler, or an allocation failed.
    #[error("No robot: {0}")]
    File(texting_robots::Error),
    /// An allocation failed while the robot was inserted.
    #[error("Out of memory")]
    Memory,
}

impl From<ParseError> for CacheError {
    ghost use Rattle.std.specs.Prelude.{◌≡◌};
    ghost use Rattle.robots_examples.specs.declared.cache.CacheError.TheVariants.{Url};

    ghost from_gives = { λ error own. own ≡ Url error };

    fn from(error: ParseError) -> Self {
        CacheError::Url(error)
    }
}

impl From<texting_robots::Error> for CacheError {
    ghost use Rattle.std.specs.Prelude.{◌≡◌};
    ghost use Rattle.robots_examples.specs.declared.cache.CacheError.TheVariants.{File};

    ghost from_gives = { λ error own. own ≡ File error };

    fn from(error: texting_robots::Error) -> Self {
        CacheError::File(error)
    }
}

impl<T: Drop> From<AllocFailed<T>> for CacheError {
    ghost use Rattle.std.specs.Prelude.{◌≡◌};
    ghost use Rattle.robots_examples.specs.declared.cache.CacheError.TheVariants.{Memory};

    ghost from_gives = { λ _ error. error ≡ Memory };

    fn from(_: AllocFailed<T>) -> Self {
        CacheError::Memory
    }
}

fn forget_oldest(robots: &mut IndexMap<String, Robot>)
    ensures { robots.new.entries ≡ remove robots.old.entries 0 }
{
    robots.shift_remove_index(0);
}

/// Removes the oldest robot if the cache is full and has none for the address.
fn evict_one(robots: &mut IndexMap<String, Robot>, address: &str)
    requires { index_map_len robots.old ≤ most_robots }
    ensures room { index_map_len robots.new + (if is_some (get_by_text robots.new address.now) then 0 else 1) ≤ most_robots }
    ensures entries { robots.new.entries
        ≡ with_room (is_some (get_by_text robots.old address.now)) robots.old.entries }
{
    if robots.len() < MAX_ROBOTS || robots.contains_key(address) {
        return;
    }
    forget_oldest(robots);
}

fn add(
    robots: &mut IndexMap<String, Robot>,
    address: String,
    robot: Robot,
) -> Result<(), CacheError>
    requires { index_map_len robots.old + (if is_some (get_by_text robots.old (string_bytes address)) then 0 else 1) ≤ most_robots }
    ensures bounded { index_map_len robots.new ≤ most_robots }
    ensures kept { OnOk result (get_by_text robots.new (string_bytes address) ≡ Some robot) }
    ensures entries { OnOk result (robots.new.entries
        ≡ insert_entry string_eq robots.old.entries address robot) }
    ensures unchanged { OnErr result (robots.new.entries ≡ robots.old.entries) }
    ensures absent { OnErr result (get_by_text robots.old (string_bytes address) ≡ None) }
    ensures rejected { IfErr result (λ error. error ≡ Memory) }
{
    robots.insert(address, robot)?;
    Ok(())
}

/// The robots of at most [`MAX_ROBOTS`] sites for one crawler, whose product token each call gets.
/// If it is full, a new site replaces the oldest one. A new robot of a site replaces its old one,
/// at the same age.
#[derive(Drop)]
pub struct Cache {
    pub robots: IndexMap<String, Robot>,
    ghost bounded: { index_map_len robots ≤ most_robots },
}

impl Cache {
    /// An empty cache.
    pub fn new(alloc: Global) -> Self
        ensures { index_map_len result.robots ≡ 0 }
    {
        Cache {
            robots: IndexMap::new(alloc),
        }
    }

    /// Stores the robot that this file has for the crawler, for the site of a URL, and replaces the site's
    /// previous robot. If the site is new and there are [`MAX_ROBOTS`] sites, the oldest one is removed.
    /// After `Memory` it has been removed if the cache was full. After any other error the cache is
    /// unchanged.
    pub fn put(
        &mut self,
        alloc: Global,
        agent: &str,
        url: &str,
        file: &[u8],
    ) -> Result<(), CacheError>
        ensures kept { OnOk result ((address : List ℕ) × (robots_address url.now ≡ Ok address)
            × IsSomeAnd (get_by_text self.new.robots address) (IsRobotOfFile agent.now (take file_limit file.now))) }
        ensures entries { OnOk result ((address : _) × (robot : _) × (robots_address url.now ≡ Ok (string_bytes address))
            × IsRobotOfFile agent.now (take file_limit file.now) robot
            × (self.new.robots.entries ≡ insert_entry string_eq
            (with_room (is_some (get_by_text self.old.robots (string_bytes address))) self.old.robots.entries)
            address robot)) }
        ensures left { IfErr result (λ error. self.new.robots.entries ≡ left_after error self.old.robots.entries) }
        ensures rejected { IfErr result (IsCacheError agent.now url.now file.now) }
    {
        let address = get_robots_url(alloc, url)?;
        let robot = Robot::new(alloc, agent, file)?;
        evict_one(&mut self.robots, address.as_str());
        add(&mut self.robots, address, robot)?;
        Ok(())
    }

    /// The robot that is stored for the site of a URL.
    pub fn find(&self, alloc: Global, url: &str) -> Result<Option<&Robot>, ParseError>
        ensures found { IfOk result (λ found. (address : List ℕ) × (robots_address url.now ≡ Ok address)
            × (option_copied found ≡ get_by_text self.now.robots address)) }
        ensures rejected { IfErr result (IsNoAddressOrMemory url.now) }
    {
        let address = get_robots_url(alloc, url)?;
        Ok(self.robots.get(address.as_str()))
    }
}
