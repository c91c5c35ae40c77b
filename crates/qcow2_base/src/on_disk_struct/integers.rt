//! The integers of the format.

ghost use Rattle.std.specs.Prelude.{true, [], ◌∷◌, refl};
ghost use Rattle.std.proofs.Common.{sym, ◌∙◌};
ghost use Rattle.qcow2_base.specs.OnDiskStruct.{field_in};

use super::OnDiskStruct;
use crate::Fault;
use byteorder::{BigEndian, ByteOrder, LittleEndian};

impl OnDiskStruct for u16 {
    const ON_DISK_SIZE: usize = 2;

    ghost ON_DISK_SIZE = { 2 };

    ghost exact = { true };

    ghost layout = { λ order n. field_in order 0 2 n ∷ [] };

    #[inline]
    #[tactic(auto, using(crate::proofs::OnDiskStructLemmas::le_of_list))]
    fn load_from_le(bytes: &[u8]) -> Result<u16, Fault> {
        if bytes.len() != Self::ON_DISK_SIZE {
            return Err(Fault::WrongLength);
        }
        Ok(LittleEndian::read_u16(bytes))
    }

    #[inline]
    #[tactic(auto, using(crate::proofs::OnDiskStructLemmas::be_of_list))]
    fn load_from_be(bytes: &[u8]) -> Result<u16, Fault> {
        if bytes.len() != Self::ON_DISK_SIZE {
            return Err(Fault::WrongLength);
        }
        Ok(BigEndian::read_u16(bytes))
    }

    #[inline]
    fn store_to_le(&self, bytes: &mut [u8]) -> Result<(), Fault> {
        if bytes.len() != Self::ON_DISK_SIZE {
            return Err(Fault::WrongLength);
        }
        LittleEndian::write_u16(bytes, *self);
        Ok(())
    }

    #[inline]
    fn store_to_be(&self, bytes: &mut [u8]) -> Result<(), Fault> {
        if bytes.len() != Self::ON_DISK_SIZE {
            return Err(Fault::WrongLength);
        }
        BigEndian::write_u16(bytes, *self);
        Ok(())
    }

    ghost size_is_end = { λ order n. refl };

    ghost loads_back = { λ order image a b held_a held_b. sym held_a.0 ∙ held_b.0 };
}

impl OnDiskStruct for u32 {
    const ON_DISK_SIZE: usize = 4;

    ghost ON_DISK_SIZE = { 4 };

    ghost exact = { true };

    ghost layout = { λ order n. field_in order 0 4 n ∷ [] };

    #[inline]
    #[tactic(auto, using(crate::proofs::OnDiskStructLemmas::le_of_list))]
    fn load_from_le(bytes: &[u8]) -> Result<u32, Fault> {
        if bytes.len() != Self::ON_DISK_SIZE {
            return Err(Fault::WrongLength);
        }
        Ok(LittleEndian::read_u32(bytes))
    }

    #[inline]
    #[tactic(auto, using(crate::proofs::OnDiskStructLemmas::be_of_list))]
    fn load_from_be(bytes: &[u8]) -> Result<u32, Fault> {
        if bytes.len() != Self::ON_DISK_SIZE {
            return Err(Fault::WrongLength);
        }
        Ok(BigEndian::read_u32(bytes))
    }

    #[inline]
    fn store_to_le(&self, bytes: &mut [u8]) -> Result<(), Fault> {
        if bytes.len() != Self::ON_DISK_SIZE {
            return Err(Fault::WrongLength);
        }
        LittleEndian::write_u32(bytes, *self);
        Ok(())
    }

    #[inline]
    fn store_to_be(&self, bytes: &mut [u8]) -> Result<(), Fault> {
        if bytes.len() != Self::ON_DISK_SIZE {
            return Err(Fault::WrongLength);
        }
        BigEndian::write_u32(bytes, *self);
        Ok(())
    }

    ghost size_is_end = { λ order n. refl };

    ghost loads_back = { λ order image a b held_a held_b. sym held_a.0 ∙ held_b.0 };
}

impl OnDiskStruct for u64 {
    const ON_DISK_SIZE: usize = 8;

    ghost ON_DISK_SIZE = { 8 };

    ghost exact = { true };

    ghost layout = { λ order n. field_in order 0 8 n ∷ [] };

    #[inline]
    #[tactic(auto, using(crate::proofs::OnDiskStructLemmas::le_of_list))]
    fn load_from_le(bytes: &[u8]) -> Result<u64, Fault> {
        if bytes.len() != Self::ON_DISK_SIZE {
            return Err(Fault::WrongLength);
        }
        Ok(LittleEndian::read_u64(bytes))
    }

    #[inline]
    #[tactic(auto, using(crate::proofs::OnDiskStructLemmas::be_of_list))]
    fn load_from_be(bytes: &[u8]) -> Result<u64, Fault> {
        if bytes.len() != Self::ON_DISK_SIZE {
            return Err(Fault::WrongLength);
        }
        Ok(BigEndian::read_u64(bytes))
    }

    #[inline]
    fn store_to_le(&self, bytes: &mut [u8]) -> Result<(), Fault> {
        if bytes.len() != Self::ON_DISK_SIZE {
            return Err(Fault::WrongLength);
        }
        LittleEndian::write_u64(bytes, *self);
        Ok(())
    }

    #[inline]
    fn store_to_be(&self, bytes: &mut [u8]) -> Result<(), Fault> {
        if bytes.len() != Self::ON_DISK_SIZE {
            return Err(Fault::WrongLength);
        }
        BigEndian::write_u64(bytes, *self);
        Ok(())
    }

    ghost size_is_end = { λ order n. refl };

    ghost loads_back = { λ order image a b held_a held_b. sym held_a.0 ∙ held_b.0 };
}
