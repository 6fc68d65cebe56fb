//! Missions of the greatest sizes.
use std::alloc::{AllocError, Global};

// The rows of the table: four tasks in each of 16.
fn push_table(alloc: Global, text: &mut String) -> Result<(), AllocError> {
    for row in 0..16u32 {
        let first = row * 4;
        let (second, third, fourth) = (first + 1, first + 2, first + 3);
        text.push_str(&format!(in alloc;
            "[\"t{first}\", \"t{second}\", \"t{third}\", \"t{fourth}\"],\n"
        )?)?;
    }
    Ok(())
}

// The rows of sensors, of which row k has the word k.
fn push_sensors(alloc: Global, text: &mut String) -> Result<(), AllocError> {
    for row in 0..64u32 {
        text.push_str(&format!(in alloc; "[[{row}], [{row}], [{row}]],\n")?)?;
    }
    Ok(())
}

// The tasks. Each adds the input to the first word of a block of its own.
fn push_tasks(alloc: Global, text: &mut String) -> Result<(), AllocError> {
    for task in 0..64u32 {
        let block = task * 4;
        text.push_str(&format!(in alloc;
            "[[task]]\nname = \"t{task}\"\nwrites = [{{ block = {block}, w0 = \"b{block}.0 + in0\" }}]\n"
        )?)?;
    }
    Ok(())
}

/// A mission of 64 tasks over 16 rows, 256 blocks and 64 rows of sensors, with 33 cycles.
pub fn greatest(alloc: Global) -> Result<String, AllocError> {
    let mut text = String::new(alloc);
    text.push_str("outputs = [\"b0.0\", \"b252.0\"]\ntable = [\n")?;
    push_table(alloc, &mut text)?;
    text.push_str("]\nsensors = [\n")?;
    push_sensors(alloc, &mut text)?;
    text.push_str("]\n[core]\nchannels = 3\ncycles = 33\nblocks = 256\nwidth = 1\n")?;
    push_tasks(alloc, &mut text)?;
    Ok(text)
}

/// A mission filled up by a comment to so many bytes.
pub fn padded(alloc: Global, mission: &str, len: usize) -> Result<String, AllocError> {
    let mut text = String::from_str(alloc, mission)?;
    text.push('#')?;
    for _ in text.len()..len {
        text.push('x')?;
    }
    Ok(text)
}
