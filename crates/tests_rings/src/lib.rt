//! Tests of the rings: what vq_common, vq_posted, vq_split_dev, vq_split_drv, vq_packed_dev, vq_packed_drv, vq_split_pair
//! and vq_packed_pair show to callers.
#![tactic(auto)]

#[cfg(test)]
mod devices;
#[cfg(test)]
mod drivers;
#[cfg(test)]
mod ends;
#[cfg(test)]
mod pairs;
#[cfg(test)]
mod posted_buffers;
#[cfg(test)]
mod queues;
