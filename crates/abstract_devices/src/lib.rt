//! The abstract devices: definitions alone, which contracts cite. A device is a record and a queue is a list of buffers;
//! there are no addresses, registers, rings or descriptors here.
#![tactic(auto)]
