//! Parsing of network addresses: `A.B.C.D:PORT`, and comma-separated lists of them.

ghost use Rattle.std.specs.Prelude.{◌≡◌, ◌<◌, ◌≤◌, ◌^◌, ◌↔◌, ◌++◌, ◌∷◌, ℕ, List, IfOk, IfSome, IsTrue, decimal, length, nat_eq, MatchResult};
ghost use Rattle.std.specs.List.{AllByRecursion, IsDistinct};
ghost use Rattle.std.specs.Option.{IsSomeAnd};
ghost use Rattle.crsm_text.specs.Words.{Lacks};
ghost use Rattle.crsm_text.specs.Reads.{ReadsAs};
ghost use Rattle.crsm_text_words.specs.declared.address.AddressParts.{AddressParts};
ghost use Rattle.crsm_text_words.specs.Addresses.{AreAddresses, AreParts, address_text, addresses_text, joined, parts_text};

use crsm_text::{LineError, read_number, split_field};
use std::alloc::Global;
use std::marker::Model;

/// Exclusive upper bound of an octet of an IPv4 address.
const OCTET_END: u64 = 256;

/// Exclusive upper bound of a port.
const PORT_END: u64 = 65_536;

/// A list of distinct addresses, each IPv4 x 65,536 + port.
#[derive(Debug, Drop)]
pub struct Addresses {
    items: Vec<u64>,
}

impl Model for Addresses {
    ghost use Rattle.std.specs.Prelude.{List, ℕ};

    ghost Value = { List ℕ };

    ghost view = { λ a. a.items.items };
}

impl Addresses {
    fn from_vec(items: Vec<u64>) -> Addresses
        ensures { result ≡ items.items }
    {
        Addresses { items }
    }

    /// Returns the addresses in order.
    pub fn as_slice(&self) -> &[u64]
        ensures { result.now ≡ self.now }
    {
        self.items.as_slice()
    }
}

/// Parses a number below `limit`, or returns `None`.
fn number_below(word: &[u8], limit: u64) -> Option<u64>
    ensures found { IfSome result (λ n. (n < limit) × (word.now ≡ decimal n)) }
    ensures only { (n : ℕ) → n < limit → word.now ≡ decimal n → result ≡ Some n }
{
    let number = read_number(word)?;
    if number >= limit {
        return None;
    }
    Some(number)
}

/// Parses one of the first three octets. Returns it and the bytes after the dot that follows, or `None`.
fn octet_field(input: &[u8]) -> Option<(u64, &[u8])>
    ensures found { IfSome result (λ f. (f.0 < 256) × (input.now ≡ decimal f.0 ++ 46 ∷ f.1.now)) }
    ensures only { (n : ℕ) (rest : List ℕ) → n < 256 → input.now ≡ decimal n ++ 46 ∷ rest → IsSomeAnd result (λ f. (f.0 ≡ n) × (f.1.now ≡ rest)) }
{
    let (word, rest) = split_field(input, b'.')?;
    let number = number_below(word, OCTET_END)?;
    Some((number, rest))
}

/// Parses the fourth octet and the port, or returns `None`.
fn port_field(input: &[u8]) -> Option<(u64, u64)>
    ensures found { IfSome result (λ f. (f.0 < 256) × (f.1 < 65536) × (input.now ≡ decimal f.0 ++ 58 ∷ decimal f.1)) }
    ensures only { (n port : ℕ) → n < 256 → port < 65536 → input.now ≡ decimal n ++ 58 ∷ decimal port → IsSomeAnd result (λ f. (f.0 ≡ n) × (f.1 ≡ port)) }
{
    let (word, rest) = split_field(input, b':')?;
    let number = number_below(word, OCTET_END)?;
    let port = number_below(rest, PORT_END)?;
    Some((number, port))
}

/// The parts of an address: the four octets of its IPv4 address, and its port.
#[derive(Clone, Copy)]
struct AddressParts {
    first: u64,
    second: u64,
    third: u64,
    fourth: u64,
    port: u64,
}

impl AddressParts {
    /// Returns the address as IPv4 x 65,536 + port.
    #[tactic(auto, using(crate::proofs::AddressLaws::joined_below, crate::proofs::AddressLaws::joined_fits))]
    fn number(&self) -> u64
        requires { AreParts self.now }
        ensures value { result ≡ joined self.now }
        ensures below { result < 2 ^ 48 }
    {
        let ipv4 = ((self.first * OCTET_END + self.second) * OCTET_END + self.third) * OCTET_END
            + self.fourth;
        ipv4 * PORT_END + self.port
    }
}

/// Parses the parts of an address, or returns `None` if the word is none.
fn read_parts(word: &[u8]) -> Option<AddressParts>
    ensures found { IfSome result (λ p. AreParts p × (word.now ≡ parts_text p)) }
    ensures only { (p : AddressParts) → AreParts p → word.now ≡ parts_text p → result ≡ Some p }
{
    let (first, rest) = octet_field(word)?;
    let (second, rest) = octet_field(rest)?;
    let (third, rest) = octet_field(rest)?;
    let (fourth, port) = port_field(rest)?;
    Some(AddressParts {
        first,
        second,
        third,
        fourth,
        port,
    })
}

/// Parses an address and returns it as IPv4 x 65,536 + port, or `None` if the word is none.
pub fn read_address(word: &[u8]) -> Option<u64>
    ensures found { IfSome result (λ a. (a < 2 ^ 48) × (word.now ≡ address_text a)) }
    ensures only { (a : ℕ) → a < 2 ^ 48 → word.now ≡ address_text a → result ≡ Some a }
{
    let parts = read_parts(word)?;
    Some(parts.number())
}

/// Parses one or more comma-separated addresses. `Unreadable` if the word is no such list.
fn read_list(alloc: Global, word: &[u8]) -> Result<Vec<u64>, LineError>
    ensures found { IfOk result (λ made. AllByRecursion (λ a. a < 2 ^ 48) made.items × (1 ≤ length made.items) × (word.now ≡ addresses_text made.items)) }
    ensures only { (all : List ℕ) → AllByRecursion (λ a. a < 2 ^ 48) all → 1 ≤ length all → word.now ≡ addresses_text all
        → MatchResult result (λ made. made.items ≡ all) (λ e. e ≡ LineError.NoMemory) }
{
    let mut addresses = Vec::new(alloc);
    let mut rest = word;
    while let Some((prefix, behind)) = split_field(rest, b',') {
        let Some(address) = read_address(prefix) else {
            return Err(LineError::Unreadable);
        };
        addresses.push(address)?;
        rest = behind;
    }
    let Some(address) = read_address(rest) else {
        return Err(LineError::Unreadable);
    };
    addresses.push(address)?;
    Ok(addresses)
}

fn are_distinct(numbers: &[u64]) -> bool
    ensures { IsTrue result ↔ IsDistinct nat_eq numbers.now }
{
    for (i, number) in numbers.iter().enumerate() {
        if numbers[i + 1..].contains(number) {
            return false;
        }
    }
    true
}

/// Parses one or more comma-separated addresses, all distinct. `Unreadable` if the word is no such list; `NoMemory` if
/// memory runs out.
pub fn read_addresses(alloc: Global, word: &[u8]) -> Result<Addresses, LineError>
    ensures found { IfOk result (λ all. AreAddresses all × (word.now ≡ addresses_text all)) }
    ensures only { (all : List ℕ) → AreAddresses all → word.now ≡ addresses_text all → ReadsAs result all }
{
    let addresses = read_list(alloc, word)?;
    if !are_distinct(addresses.as_slice()) {
        return Err(LineError::Unreadable);
    }
    Ok(Addresses::from_vec(addresses))
}
