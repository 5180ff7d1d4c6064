//! Numbers in a byte order, by the library `byteorder` (D-Bus Specification, "Type System", "Marshaling").
ghost use Rattle.std.specs.Prelude.{◌≡◌, ◌≤◌, ◌++◌, length, drop};
ghost use Rattle.std.specs.Int.{w16, w32, w64};
ghost use Rattle.dbus_values.specs.Reading.{number_of};
ghost use Rattle.dbus_values.specs.Values.{number_bytes};

use crate::Order;
use byteorder::{BigEndian, ByteOrder, LittleEndian};

impl Order {
    /// Reads the number in the first two bytes.
    #[inline]
    pub fn read_u16(self, bytes: &[u8]) -> u16
        requires { 2 ≤ length bytes.now }
        ensures { result ≡ number_of self w16 bytes.now }
    {
        match self {
            Order::Little => LittleEndian::read_u16(bytes),
            Order::Big => BigEndian::read_u16(bytes),
        }
    }

    /// Reads the number in the first four bytes.
    #[inline]
    pub fn read_u32(self, bytes: &[u8]) -> u32
        requires { 4 ≤ length bytes.now }
        ensures { result ≡ number_of self w32 bytes.now }
    {
        match self {
            Order::Little => LittleEndian::read_u32(bytes),
            Order::Big => BigEndian::read_u32(bytes),
        }
    }

    /// Reads the number in the first eight bytes.
    #[inline]
    pub fn read_u64(self, bytes: &[u8]) -> u64
        requires { 8 ≤ length bytes.now }
        ensures { result ≡ number_of self w64 bytes.now }
    {
        match self {
            Order::Little => LittleEndian::read_u64(bytes),
            Order::Big => BigEndian::read_u64(bytes),
        }
    }

    /// Writes a number over the first four bytes.
    #[inline]
    pub fn write_u32(self, bytes: &mut [u8], number: u32)
        requires { 4 ≤ length bytes.old }
        ensures { bytes.new ≡ number_bytes self w32 number ++ drop 4 bytes.old }
    {
        match self {
            Order::Little => LittleEndian::write_u32(bytes, number),
            Order::Big => BigEndian::write_u32(bytes, number),
        }
    }

    /// The four bytes of a number.
    #[inline]
    pub fn bytes_of_u32(self, number: u32) -> [u8; 4]
        ensures { result ≡ number_bytes self w32 number }
    {
        let mut bytes = [0; 4];
        self.write_u32(&mut bytes, number);
        bytes
    }

    /// The eight bytes of a number.
    #[inline]
    pub fn bytes_of_u64(self, number: u64) -> [u8; 8]
        ensures { result ≡ number_bytes self w64 number }
    {
        let mut bytes = [0; 8];
        match self {
            Order::Little => LittleEndian::write_u64(&mut bytes, number),
            Order::Big => BigEndian::write_u64(&mut bytes, number),
        }
        bytes
    }
}
