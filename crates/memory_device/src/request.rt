// The guest's requests on a record by value.
ghost use Rattle.std.specs.Prelude.{◌≡◌};
ghost use Rattle.memory_device.specs.Record.{record_of};
ghost use Rattle.memory_device.specs.Request.{request_outcome_of, carried};

use crate::calls;
use crate::device::{MemoryDevice, device_of, words_of};
use crate::refused::Refused;
use device_words::bytes::{REQUEST_BYTES, RESPONSE_BYTES};
use map_check::answer::RecordFault;

// The ten bytes of the response, and the next state. A refusal leaves zeros for the response, and the state as it was.
#[derive(Clone, Copy, Debug, PartialEq, Eq)]
pub struct Carried {
    pub response: [u8; RESPONSE_BYTES],
    pub device: MemoryDevice,
}

impl MemoryDevice {
    // A request carried out.
    pub fn carry_out(
        self,
        bytes: [u8; REQUEST_BYTES],
    ) -> Result<Carried, Refused<RecordFault, Carried>>
        ensures { request_outcome_of result ≡ carried (record_of self) bytes }
    {
        let mut words = words_of(self);
        let mut response = [0; RESPONSE_BYTES];
        calls::carry_out(&mut words, bytes, &mut response).map_err(|fault| Refused {
            fault,
            left: Carried {
                response: [0; RESPONSE_BYTES],
                device: self,
            },
        })?;
        Ok(Carried {
            response,
            device: device_of(&words),
        })
    }
}
