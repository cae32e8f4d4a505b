//! Edits as they are written.

ghost use Rattle.std.specs.Prelude.{◌≡◌, ◌++◌, OnOk};
ghost use Rattle.manifest.specs.Edits.{edit_bytes, IsEdit};

use crate::encode::Encode;
use flsm_model::Edit;
use std::alloc::AllocError;

impl Encode for Edit {
    ghost spelling = { edit_bytes };

    ghost fits = { IsEdit };

    fn length(&self) -> u64 {
        match self {
            Edit::Open { session, log } => 1 + session.length() + log.length(),
            Edit::Flush {
                row,
                from,
                to,
                log,
                chosen,
            } => {
                let numbers = 1 + from.length() + to.length() + log.length();
                numbers
                    .saturating_add(row.length())
                    .saturating_add(chosen.length())
            }
            Edit::Move {
                level,
                floor,
                inputs,
                outputs,
            } => {
                let numbers = 1 + level.length() + floor.length();
                numbers
                    .saturating_add(inputs.length())
                    .saturating_add(outputs.length())
            }
            Edit::Cut {
                level,
                keys,
                inputs,
                outputs,
            } => {
                let numbers = 1 + level.length();
                numbers
                    .saturating_add(keys.length())
                    .saturating_add(inputs.length())
                    .saturating_add(outputs.length())
            }
            Edit::Merge {
                floor,
                whole,
                inputs,
                outputs,
            } => {
                let numbers = 1 + floor.length() + whole.length();
                numbers
                    .saturating_add(inputs.length())
                    .saturating_add(outputs.length())
            }
        }
    }

    fn encode(&self, bytes: &mut Vec<u8>) -> Result<(), AllocError> {
        match self {
            Edit::Open { session, log } => {
                bytes.push(1)?;
                session.encode(bytes)?;
                log.encode(bytes)
            }
            Edit::Flush {
                row,
                from,
                to,
                log,
                chosen,
            } => {
                bytes.push(2)?;
                row.encode(bytes)?;
                from.encode(bytes)?;
                to.encode(bytes)?;
                log.encode(bytes)?;
                chosen.encode(bytes)
            }
            Edit::Move {
                level,
                floor,
                inputs,
                outputs,
            } => {
                bytes.push(3)?;
                level.encode(bytes)?;
                floor.encode(bytes)?;
                inputs.encode(bytes)?;
                outputs.encode(bytes)
            }
            Edit::Cut {
                level,
                keys,
                inputs,
                outputs,
            } => {
                bytes.push(4)?;
                level.encode(bytes)?;
                keys.encode(bytes)?;
                inputs.encode(bytes)?;
                outputs.encode(bytes)
            }
            Edit::Merge {
                floor,
                whole,
                inputs,
                outputs,
            } => {
                bytes.push(5)?;
                floor.encode(bytes)?;
                whole.encode(bytes)?;
                inputs.encode(bytes)?;
                outputs.encode(bytes)
            }
        }
    }
}
